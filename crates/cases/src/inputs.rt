// What a case is made of. It is made without an allocator, so rows are arrays with a count beside them.
ghost use Rattle.std.specs.Prelude.{◌<◌, ◌≤◌};

// Lists as the paper lends them: all numbers in one row, one end for each list, and the word that says which were delivered.
#[derive(Clone, Copy)]
pub struct Lists {
    pub numbers: [u32; 512],
    pub ends: [u32; 32],
    pub count: usize,
    pub used: usize,
    pub word: u32,
}

impl Lists {
    // Where list k begins and ends.
    pub(crate) fn start(&self, k: usize) -> u64
        ensures { result < 4294967296 }
    {
        if k == 0 { 0 } else { self.end(k - 1) }
    }

    pub(crate) fn end(&self, k: usize) -> u64
        ensures { result < 4294967296 }
    {
        u64::from(self.ends[k % 32])
    }

    // The numbers in use.
    pub(crate) fn in_use(&self) -> &[u32] {
        self.numbers.get(..self.used).unwrap_or(&self.numbers)
    }
}

// An expression in row form.
#[derive(Clone, Copy)]
pub struct Row {
    pub bytes: [u8; 48],
    pub count: usize,
}

// The calls of a run: a code and a number each.
#[derive(Clone, Copy)]
pub struct Calls {
    pub codes: [u8; 32],
    pub arguments: [u32; 32],
    pub count: usize,
}

// Where a run begins.
#[derive(Clone, Copy)]
pub struct Begin {
    pub bookmark: u64,
}

// A packed expression.
#[derive(Clone, Copy)]
pub struct Bytes {
    pub bytes: [u8; 64],
    pub count: usize,
}

// The low 32 bits.
pub fn narrow(x: u64) -> u32 {
    (x % 4294967296) as u32
}
