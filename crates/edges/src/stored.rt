// The stored forms and the lent lists, a call for each case: what is handed in and what comes back.
use crate::text::{
    Braced, Bytes, Counted, Lent, MARK, MARK_32, Numbers, Refused, RowsHold, Spaced, Word,
};
use compare::lent::ends_of;
use compare::rows::{front, hold};
use evaluator::Lists;
use model::{DecodeResult, WriteResult};
use std::{fmt, io};

// What a call wrote into a row of so many bytes, at most 64, and the whole row.
#[derive(Clone, Copy)]
pub struct Written {
    result: WriteResult,
    row: [u8; 80],
}

impl Written {
    pub fn of<F: FnOnce(&mut [u8]) -> WriteResult>(room: usize, call: F) -> Written
        requires { F.IsAlwaysCallable call }
    {
        let mut row = [MARK; 80];
        let n = room % 65;
        let result = call(&mut row[..n]);
        Written { result, row }
    }

    fn front(&self) -> &[u8] {
        front(&self.row, self.result.count)
    }

    fn in_hexadecimal(&self) -> Said<'_, Bytes<'_>> {
        Said {
            written: self,
            what: "byte",
            elements: Bytes(self.front()),
        }
    }

    fn as_nodes(&self) -> Said<'_, Spaced<'_, u8>> {
        Said {
            written: self,
            what: "node",
            elements: Spaced(self.front()),
        }
    }
}

// How many elements were written, and these; or the refusal. The row behind what was written holds what it held.
#[derive(Clone, Copy)]
struct Said<'a, D> {
    written: &'a Written,
    what: &'static str,
    elements: D,
}

impl<D: fmt::Display> fmt::Display for Said<'_, D> {
    fn fmt<W: fmt::Write>(&self, f: &mut fmt::Formatter<W>) -> fmt::Result {
        let w = self.written.result;
        if w.number == 0 {
            write!(f, "{}{}", Counted(w.count, self.what), self.elements)?;
        } else {
            let refused = Refused {
                number: w.number,
                others_are_zero: w.count == 0,
            };
            write!(f, "{refused}")?;
        }
        write!(f, "{}", RowsHold(hold(&self.written.row, w.count, &MARK)))
    }
}

// A packed expression to its row form, in a row of so many nodes.
pub fn unpack<R: Print>(
    rt: &R,
    name: &[u8],
    bytes: &[u8],
    lists: &Lists,
    room: usize,
) -> io::Result<()> {
    let w = Written::of(room, |row: &mut [u8]| {
        forms::unpack_expression(bytes, lists.count, lists.word, row)
    });
    rt.write_all(name)?;
    println!(rt;
        ", unpack{}, {}{}, into {room}: {}",
        Bytes(bytes),
        Counted(lists.count, "list"),
        Word(lists.word),
        w.as_nodes()
    )
}

// A row to its packed form, in so many bytes.
pub fn pack<R: Print>(
    rt: &R,
    name: &[u8],
    nodes: &[u8],
    lists: &Lists,
    room: usize,
) -> io::Result<()> {
    let w = Written::of(room, |row: &mut [u8]| {
        forms::pack_expression(nodes, lists.count, lists.word, row)
    });
    rt.write_all(name)?;
    println!(rt;
        ", pack{}, {}{}, into {room}: {}",
        Spaced(nodes),
        Counted(lists.count, "list"),
        Word(lists.word),
        w.in_hexadecimal()
    )
}

// Lists as a delivery, in so many bytes.
pub fn encode<R: Print>(
    rt: &R,
    name: &[u8],
    numbers: &[u32],
    laid: &Lists,
    room: usize,
) -> io::Result<()> {
    let w = Written::of(room, |row: &mut [u8]| {
        encode::encode_delivery(numbers, ends_of(laid), laid.word, row)
    });
    let lent = Lent(numbers, laid);
    rt.write_all(name)?;
    println!(rt; ", encode{lent}, into {room}: {}", w.in_hexadecimal())
}

// A delivery that was moved from its old form to the new one, or back, in so many bytes.
pub fn moved<R: Print>(
    rt: &R,
    name: &[u8],
    kind: &str,
    bytes: &[u8],
    room: usize,
    w: &Written,
) -> io::Result<()> {
    let bytes = Bytes(bytes);
    rt.write_all(name)?;
    println!(rt; ", {kind}{bytes}, into {room}: {}", w.in_hexadecimal())
}

// What a delivery was read as, and whether the rows behind hold what they held.
#[derive(Clone, Copy)]
struct Decoded<'a> {
    result: DecodeResult,
    numbers: &'a [u32],
    ends: &'a [u32],
}

impl fmt::Display for Decoded<'_> {
    fn fmt<W: fmt::Write>(&self, f: &mut fmt::Formatter<W>) -> fmt::Result {
        let d = self.result;
        if d.number == 0 {
            let lists = evaluator::laid(front(self.ends, d.lists), d.word);
            write!(f, "word {}, {}, ", d.word, Counted(d.lists, "list"))?;
            let numbers = front(self.numbers, d.numbers);
            write!(
                f,
                "{}{}",
                Counted(d.numbers, "number"),
                Braced(numbers, &lists)
            )?;
        } else {
            let refused = Refused {
                number: d.number,
                others_are_zero: d.word == 0 && d.lists == 0 && d.numbers == 0,
            };
            write!(f, "{refused}")?;
        }
        let rows_hold = hold(self.numbers, d.numbers, &MARK_32)
            && hold(self.ends, d.lists, &MARK_32);
        write!(f, "{}", RowsHold(rows_hold))
    }
}

// A delivery, into so many numbers and so many ends, at most 64 each.
pub fn decode<R: Print>(
    rt: &R,
    name: &[u8],
    bytes: &[u8],
    number_room: usize,
    end_room: usize,
) -> io::Result<()> {
    let mut numbers = [MARK_32; 80];
    let mut ends = [MARK_32; 80];
    let n = number_room % 65;
    let k = end_room % 65;
    let result = decode::decode_delivery(bytes, &mut numbers[..n], &mut ends[..k]);
    let decoded = Decoded {
        result,
        numbers: &numbers,
        ends: &ends,
    };
    rt.write_all(name)?;
    println!(rt;
        ", decode{}, into {} and {}: {decoded}",
        Bytes(bytes),
        Counted(number_room, "number"),
        Counted(end_room, "end")
    )
}

// The tests of lent lists.
pub fn test<R: Print>(rt: &R, name: &[u8], numbers: &[u32], laid: &Lists) -> io::Result<()> {
    let lent = Lent(numbers, laid);
    rt.write_all(name)?;
    match lists::test_lists(numbers, ends_of(laid), laid.word) {
        0 => println!(rt; ", test{lent}: accepted"),
        number => println!(rt; ", test{lent}: refused {number}"),
    }
}

// The part of one list, and where it stands.
pub fn part<R: Print>(
    rt: &R,
    name: &[u8],
    numbers: &[u32],
    laid: &Lists,
    k: usize,
) -> io::Result<()> {
    let span = lists::list_span(numbers, ends_of(laid), laid.word, k);
    let part = lists::list_part(numbers, ends_of(laid), laid.word, k);
    let remark = if span.size == part.len() {
        ""
    } else {
        ", a span of another length"
    };
    rt.write_all(name)?;
    println!(rt;
        ", list {k} of{}: {}{}, from place {}{remark}",
        Lent(numbers, laid),
        Counted(part.len(), "number"),
        Numbers(part),
        span.start
    )
}
