// The text that the program `members` prints, made whole in one row of bytes.
#![tactic(auto)]

ghost use Rattle.std.specs.Prelude.{◌≡◌, ◌+◌, ◌≤◌, length};
ghost use Rattle.model.specs.Program.{listing};
ghost use Rattle.fields.specs.Rows.{lay};
ghost use Rattle.report.specs.Text.{line, lines, text};

use itoa::Buffer;

// The text so far: the first `len` bytes of the row.
#[derive(Drop)]
struct Output<'a> {
    row: &'a mut [u8],
    len: usize,
}

impl Output<'_> {
    // Writes bytes behind the text so far.
    fn put(&mut self, bytes: &[u8])
        requires { self.old.len + length bytes.now ≤ length self.old.row.now }
        ensures same_row { self.new.row.ghost_name ≡ self.old.row.ghost_name }
        ensures len { self.new.len ≡ self.old.len + length bytes.now }
        ensures row { self.new.row.now ≡ lay self.old.row.now self.old.len bytes.now }
    {
        let end = self.len + bytes.len();
        self.row[self.len..end].copy_from_slice(bytes);
        self.len = end;
    }

    // Writes a word, a number and a line end.
    fn put_line(&mut self, word: &[u8], n: u32)
        requires { self.old.len + length (line word.now n) ≤ length self.old.row.now }
        ensures same_row { self.new.row.ghost_name ≡ self.old.row.ghost_name }
        ensures len { self.new.len ≡ self.old.len + length (line word.now n) }
        ensures row { self.new.row.now ≡ lay self.old.row.now self.old.len (line word.now n) }
    {
        let mut digits = Buffer::new();
        self.put(word);
        self.put(digits.format(n).as_bytes());
        self.put(b"\n");
    }

    // Writes each member on a line.
    fn put_lines(&mut self, members: &[u32])
        requires { self.old.len + length (lines members.now) ≤ length self.old.row.now }
        ensures same_row { self.new.row.ghost_name ≡ self.old.row.ghost_name }
        ensures len { self.new.len ≡ self.old.len + length (lines members.now) }
        ensures row { self.new.row.now ≡ lay self.old.row.now self.old.len (lines members.now) }
    {
        for m in members {
            self.put_line(b"", *m);
        }
    }
}

// Makes the text for an input, from the start of `out`, and hands back its length. The row fits every text: 4,096 lines of a
// number, of 11 bytes at most, and a last line of 17.
pub fn report(input: &[u8], out: &mut [u8; 45073]) -> usize
    ensures value { result ≡ length (text (listing input.now)) }
    ensures out_after { out.new ≡ lay out.old 0 (text (listing input.now)) }
{
    let mut members = [0u32; 4096];
    let r = listing::list_members(input, &mut members);
    let mut text = Output { row: out, len: 0 };
    if r.number != 0 {
        text.put_line(b"refused ", r.number);
        return text.len;
    }
    let count = r.count;
    text.put_lines(&members[..count]);
    text.put_line(b"moves ", r.moves);
    text.len
}
