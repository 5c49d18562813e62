// How large it will get as one case: the ends and the expression that are handed in, and the bounds.
use crate::outcome::Outcome;
use crate::text::{Bytes, Numbers, Refused};
use compare::evaluated;
use compare::lent::{Source, ends_of};
use evaluator::Lists;
use model::BoundsResult;
use std::{fmt, io};

pub fn bounds<R: Print>(rt: &R, name: &[u8], lists: Lists, packed: &[u8]) -> io::Result<Outcome> {
    let source = Source {
        numbers: &[],
        lists,
        packed,
    };
    let got = source.bounds();
    let outcome = Outcome::from(evaluated::bounds(lists, packed, &got));
    rt.write_all(name)?;
    println!(rt;
        ", bounds ends{}, packed{}: {}{outcome}",
        Numbers(ends_of(&lists)),
        Bytes(packed),
        CameBack(got)
    )?;
    Ok(outcome)
}

#[derive(Clone, Copy)]
struct CameBack(BoundsResult);

impl fmt::Display for CameBack {
    fn fmt<W: fmt::Write>(&self, f: &mut fmt::Formatter<W>) -> fmt::Result {
        let b = self.0;
        if b.number == 0 {
            return write!(
                f,
                "members {}, moves {}, bytes {}",
                b.members, b.moves, b.bytes
            );
        }
        let refused = Refused {
            number: b.number,
            others_are_zero: b.members == 0 && b.moves == 0 && b.bytes == 0,
        };
        write!(f, "{refused}")
    }
}
