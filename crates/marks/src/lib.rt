// 65,536 marks, one for each number of 16 bits: 1,024 words of 64.
#![tactic(auto)]

ghost use Rattle.std.specs.Prelude.{◌≡◌};
ghost use Rattle.marks.specs.Marks.{marked, with_mark, wiped};

// Whether mark k is set.
pub fn is_marked(marks: &[u64; 1024], k: u16) -> bool
    ensures { result ≡ marked marks.now k }
{
    let q = (k / 64) as usize;
    let r = k % 64;
    (marks[q] >> r) % 2 == 1
}

// Sets mark k.
pub fn mark(marks: &mut [u64; 1024], k: u16)
    ensures { marks.new ≡ with_mark marks.old k }
{
    let q = (k / 64) as usize;
    let r = k % 64;
    marks[q] = marks[q] | (1u64 << r);
}

// Clears mark k, and with it the other marks of its word. Done for each number that was marked, it leaves no mark.
pub fn wipe(marks: &mut [u64; 1024], k: u16)
    ensures { marks.new ≡ wiped marks.old k }
{
    let q = (k / 64) as usize;
    marks[q] = 0;
}
