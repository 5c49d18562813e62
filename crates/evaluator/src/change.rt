// A number added to a list or removed from it, and the kept row of members with it. All is worked out afresh: the members number by
// number, by which lists will hold each, and the lists by going over the old ones. The old rows are read, and the new ones written
// beside them, so that nothing is moved.
use crate::Refusal;
use crate::lent::Lists;
use crate::member::Expression;
use crate::plain::Machine;
use crate::tokens::nodes_of;

// What is asked for: the number is removed from the list where add is 0, and else added to it; a byte, as C hands it in.
#[derive(Clone, Copy)]
pub struct Change {
    pub list: usize,
    pub number: u32,
    pub add: u8,
}

impl Change {
    pub(crate) fn adds(&self) -> bool {
        self.add != 0
    }

    // What is refused of the list to change.
    fn check_list(&self, lists: &Lists) -> Result<(), Refusal> {
        if lists.count <= self.list {
            return Err(Refusal::NoSuchList);
        }
        if lists.is_delivered(self.list) {
            Ok(())
        } else {
            Err(Refusal::NotDelivered)
        }
    }

    // What is refused of an addition to the lists of a row that so many numbers are lent of.
    fn check_room(&self, lists: &Lists, room: usize) -> Result<(), Refusal> {
        if !self.adds() {
            return Ok(());
        }
        if 65535 <= lists.size(self.list) {
            return Err(Refusal::ListFull);
        }
        if room <= lists.used() {
            return Err(Refusal::NoRoom);
        }
        Ok(())
    }
}

// What it comes to: how the lists lie then, and how many members there are.
#[derive(Clone, Copy)]
pub struct Updated {
    pub lists: Lists,
    pub count: usize,
}

impl<'a> Expression<'a> {
    // All members.
    fn members(&self) -> Machine<'a> {
        Machine {
            expression: *self,
            floor: 0,
        }
    }

    // The members, as far as the row goes, and how many were written.
    fn put_members(&self, row: &mut [u32]) -> usize {
        let mut count: usize = 0;
        for (place, x) in row.iter_mut().zip(self.members()) {
            *place = x;
            count = count.wrapping_add(1);
        }
        count
    }

    // Whether these are the members, all of them in order.
    fn are_members(&self, row: &[u32]) -> bool {
        let mut floor = 0;
        for x in row {
            if self.least(floor) != Some(*x) {
                return false;
            }
            floor = u64::from(*x) + 1;
        }
        self.least(floor).is_none()
    }

    // Whether the kept row has so many elements, and these are the members.
    fn is_kept(&self, kept: &[u32], count: usize) -> bool {
        match kept.get(..count) {
            Some(row) => self.are_members(row),
            None => false,
        }
    }

    // The expression once the change is made.
    fn after(&self, c: Change) -> Expression<'a> {
        Expression {
            change: Some(c),
            ..*self
        }
    }

    // What is refused of a change of a list that is there.
    fn check(&self, c: Change, kept: &[u32], count: usize) -> Result<(), Refusal> {
        if !self.is_kept(kept, count) {
            return Err(Refusal::NotKept);
        }
        if self.lists.part(self.numbers, c.list).contains(&c.number) == c.adds() {
            return Err(Refusal::AlreadySo);
        }
        c.check_room(self.lists, self.numbers.len())?;
        let most = kept.len().wrapping_add(1);
        if kept.len() < self.after(c).members().take(most).count() {
            return Err(Refusal::NoRoom);
        }
        Ok(())
    }
}

// Numbers written into a row, each behind the others; one that has no place counts all the same.
#[derive(Drop)]
struct Written<'a> {
    row: &'a mut [u32],
    count: u32,
}

impl Written<'_> {
    fn push(&mut self, x: u32) {
        if let Some(place) = self.row.get_mut(self.count as usize) {
            *place = x;
        }
        self.count = self.count.wrapping_add(1);
    }

    fn push_all(&mut self, part: &[u32]) {
        for x in part {
            self.push(*x);
        }
    }

    // The numbers of a list with the change made: those below its number, the number where it is added, and those above it.
    fn push_changed(&mut self, part: &[u32], c: Change) {
        let below = part.partition_point(|x| *x < c.number);
        let above = part.partition_point(|x| *x <= c.number);
        self.push_all(&part[..below]);
        if c.adds() {
            self.push(c.number);
        }
        self.push_all(&part[above..]);
    }
}

// All lists as they will be, and how they lie then.
fn put_lists(numbers: &[u32], lists: &Lists, c: Change, row: &mut [u32]) -> Lists {
    let mut new = *lists;
    let mut written = Written { row, count: 0 };
    for k in 0..lists.count {
        let part = lists.part(numbers, k);
        if k == c.list {
            written.push_changed(part, c);
        } else {
            written.push_all(part);
        }
        if let Some(end) = new.ends.get_mut(k) {
            *end = written.count;
        }
    }
    new
}

// The change made: the new rows, which hold what the old ones do, get the lists' numbers and the members as these will be, and keep
// what stands behind them; with a refusal they keep all.
pub fn update(
    numbers: &[u32],
    lists: Lists,
    packed: &[u8],
    c: Change,
    kept: &[u32],
    count: usize,
    new_numbers: &mut [u32],
    new_kept: &mut [u32],
) -> Result<Updated, Refusal> {
    lists.check(numbers)?;
    let nodes = nodes_of(packed, &lists)?;
    c.check_list(&lists)?;
    let expression = Expression {
        numbers,
        lists: &lists,
        nodes: nodes.read(),
        change: None,
    };
    expression.check(c, kept, count)?;
    Ok(Updated {
        lists: put_lists(numbers, &lists, c, new_numbers),
        count: expression.after(c).put_members(new_kept),
    })
}

// The members, as far as the row goes, and how many were written; what is refused of lists or expression.
fn put_members(
    numbers: &[u32],
    lists: &Lists,
    packed: &[u8],
    row: &mut [u32],
) -> Result<usize, Refusal> {
    lists.check(numbers)?;
    let nodes = nodes_of(packed, lists)?;
    let expression = Expression {
        numbers,
        lists,
        nodes: nodes.read(),
        change: None,
    };
    Ok(expression.put_members(row))
}

// The same, none where lists or expression are refused.
pub fn members(numbers: &[u32], lists: Lists, packed: &[u8], row: &mut [u32]) -> usize {
    put_members(numbers, &lists, packed, row).unwrap_or(0)
}
