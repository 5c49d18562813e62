// What changes in a list, as the second evaluator takes it; and the engine's change from it. What else comes to lists is handed on here.
use compare::lent::Source;
use evaluator::{Change, Lists};

// What a change is asked of: lists and an expression, what changes, and a kept row that is said to hold so many members.
#[derive(Clone, Copy)]
pub struct Request<'a> {
    pub source: Source<'a>,
    pub change: Change,
    pub kept: &'a [u32],
    pub count: usize,
}

// What the engine hands back of a change: the number of a refusal or 0, how the lists lie then, and how many members there are.
#[derive(Clone, Copy)]
pub struct Updated {
    pub number: u32,
    pub lists: Lists,
    pub count: usize,
}

// The same, and the numbers and the kept row as they are left.
#[derive(Clone, Copy)]
pub struct Left<'a> {
    pub updated: Updated,
    pub numbers: &'a [u32],
    pub kept: &'a [u32],
}

pub fn change_of(made: cases::Change) -> Change {
    Change {
        list: made.list,
        number: made.number,
        add: made.add,
    }
}

// The change that takes a change back.
pub fn opposite(c: Change) -> Change {
    Change {
        add: u8::from(c.add == 0),
        ..c
    }
}

// A change by the engine, in rows that hold the request's; no more ends than there is room for are lent.
pub fn update(request: Request, numbers: &mut [u32], kept: &mut [u32]) -> Updated {
    let mut lists = request.source.lists;
    let mut count = request.count;
    let c = request.change;
    let lent = lists.count;
    let word = lists.word;
    let number = match lists.ends.get_mut(..lent) {
        Some(ends) => update::update(
            numbers,
            ends,
            word,
            request.source.packed,
            c.list,
            c.number,
            c.add,
            kept,
            &mut count,
        ),
        None => 0,
    };
    Updated {
        number,
        lists,
        count,
    }
}
