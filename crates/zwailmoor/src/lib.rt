// The public calls for C and Rust: a static library. Each passes its arguments on and promises, for all of them, what the call
// behind it promises. A slice is a pointer and a length to C; include/zwailmoor.h declares the same functions. No function keeps
// anything between calls, and none calls C.
#![tactic(auto)]

ghost use Rattle.std.specs.Prelude.{◌≡◌};
ghost use Rattle.model.specs.Lists.{lend, span_of};
ghost use Rattle.model.specs.Run.{starting};
ghost use Rattle.model.specs.Calls.{written, decoded, ran, unpack_expression, pack_expression, decode_delivery, encode_delivery, upgrade_delivery, downgrade_delivery, run_call};
ghost use Rattle.model.specs.Demands.{ThirdDemandMet};
ghost use Rattle.model.specs.Update.{change, update, updated};
ghost use Rattle.model.specs.RequestOne.{RequestOneMet};
ghost use Rattle.model.specs.Bounds.{bounds, bounded};
ghost use Rattle.model.specs.Joined.{join_deliveries};
ghost use Rattle.lists.specs.Span.{span_says};

use lists::Span;
use model::{BoundsResult, DecodeResult, RunResult, WriteResult};

// A packed expression into its row form.
#[unsafe(no_mangle)]
pub extern "C" fn zwailmoor_unpack_expression(
    bytes: &[u8],
    lists: usize,
    word: u32,
    row: &mut [u8],
) -> WriteResult
    ensures { written result row.new ≡ unpack_expression bytes.now lists word row.old }
{
    forms::unpack_expression(bytes, lists, word, row)
}

// The row form of an expression into its packed form.
#[unsafe(no_mangle)]
pub extern "C" fn zwailmoor_pack_expression(
    row: &[u8],
    lists: usize,
    word: u32,
    bytes: &mut [u8],
) -> WriteResult
    ensures { written result bytes.new ≡ pack_expression row.now lists word bytes.old }
{
    forms::pack_expression(row, lists, word, bytes)
}

// Reads a delivery.
#[unsafe(no_mangle)]
pub extern "C" fn zwailmoor_decode_delivery(
    bytes: &[u8],
    numbers: &mut [u32],
    ends: &mut [u32],
) -> DecodeResult
    ensures { decoded result numbers.new ends.new ≡ decode_delivery bytes.now numbers.old ends.old }
{
    decode::decode_delivery(bytes, numbers, ends)
}

// Writes a delivery.
#[unsafe(no_mangle)]
pub extern "C" fn zwailmoor_encode_delivery(
    numbers: &[u32],
    ends: &[u32],
    word: u32,
    bytes: &mut [u8],
) -> WriteResult
    ensures { written result bytes.new ≡ encode_delivery (lend numbers.now ends.now word) bytes.old }
{
    encode::encode_delivery(numbers, ends, word, bytes)
}

// Moves a stored delivery from 01's form to Two's, all lists delivered.
#[unsafe(no_mangle)]
pub extern "C" fn zwailmoor_upgrade_delivery(old: &[u8], bytes: &mut [u8]) -> WriteResult
    ensures { written result bytes.new ≡ upgrade_delivery old.now bytes.old }
{
    convert::upgrade_delivery(old, bytes)
}

// And back.
#[unsafe(no_mangle)]
pub extern "C" fn zwailmoor_downgrade_delivery(bytes: &[u8], old: &mut [u8]) -> WriteResult
    ensures { written result old.new ≡ downgrade_delivery bytes.now old.old }
{
    convert::downgrade_delivery(bytes, old)
}

// A full delivery and a daily one, joined into one.
#[unsafe(no_mangle)]
pub extern "C" fn zwailmoor_join_deliveries(
    full: &[u8],
    daily: &[u8],
    joined: &mut [u8],
) -> WriteResult
    ensures { written result joined.new ≡ join_deliveries full.now daily.now joined.old }
{
    join::join_deliveries(full, daily, joined)
}

// Where the part of list k stands in the numbers, and its length: C has no slice to hand back.
#[unsafe(no_mangle)]
pub extern "C" fn zwailmoor_list_span(numbers: &[u32], ends: &[u32], word: u32, k: usize) -> Span
    ensures { span_says result ≡ span_of (lend numbers.now ends.now word) k }
{
    lists::list_span(numbers, ends, word, k)
}

// A run.
#[unsafe(no_mangle)]
pub extern "C" fn zwailmoor_run(
    numbers: &[u32],
    ends: &[u32],
    word: u32,
    packed: &[u8],
    bookmark: u64,
    codes: &[u8],
    args: &[u32],
    replies: &mut [u64],
) -> RunResult
    ensures call { ran result replies.new ≡ run_call (lend numbers.now ends.now word) packed.now (starting bookmark) codes.now args.now replies.old }
    ensures demand { ThirdDemandMet (lend numbers.now ends.now word) packed.now (starting bookmark) codes.now args.now replies.old (ran result replies.new) }
{
    engine::run(numbers, ends, word, packed, bookmark, codes, args, replies)
}

// Adds a number to a list or removes it from it, and brings a kept row of members and its count up to date.
#[unsafe(no_mangle)]
pub extern "C" fn zwailmoor_update(
    numbers: &mut [u32],
    ends: &mut [u32],
    word: u32,
    packed: &[u8],
    list: usize,
    number: u32,
    add: u8,
    kept: &mut [u32],
    count: &mut usize,
) -> u32
    ensures call { updated result numbers.new ends.new kept.new count.new ≡ update (lend numbers.old ends.old word) packed.now (change list number add) kept.old count.old }
    ensures request { RequestOneMet (lend numbers.old ends.old word) packed.now (change list number add) kept.old count.old (updated result numbers.new ends.new kept.new count.new) }
{
    update::update(numbers, ends, word, packed, list, number, add, kept, count)
}

// The most members, moves and bytes, from the ends and an expression alone.
#[unsafe(no_mangle)]
pub extern "C" fn zwailmoor_bounds(ends: &[u32], packed: &[u8]) -> BoundsResult
    ensures { bounded result ≡ bounds ends.now packed.now }
{
    bounds::bounds(ends, packed)
}
