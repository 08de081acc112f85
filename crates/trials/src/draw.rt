// Drawn numbers: each follows from the one before, and all stay below 2,147,483,647.
ghost use Rattle.std.specs.Prelude.{◌≡◌, ◌*◌, ◌%◌, if◌then◌else◌, max};

// A row of drawn numbers, by the last one.
#[derive(Clone, Copy)]
pub struct Draws {
    pub last: u64,
}

impl Draws {
    // The numbers that follow this one.
    pub fn after(last: u64) -> Draws
        ensures { result.last ≡ last }
    {
        Draws { last }
    }

    // The next number.
    pub fn next(&mut self) -> u64
        ensures follows { result ≡ self.old.last % 2147483647 * 48271 % 2147483647 }
        ensures last { self.new.last ≡ result }
    {
        let next = self.last % 2147483647 * 48271 % 2147483647;
        self.last = next;
        next
    }
}

// A 32-bit number of a drawn number.
pub fn far(x: u64) -> u32
    ensures { result ≡ x % 2147483647 * 4099 % 4294967296 }
{
    (x % 2147483647 * 4099 % 4294967296) as u32
}

// A number below the bound, or 0 where there is none; or one that may be anywhere.
pub fn near_or_far(x: u64, below: u32, anywhere: bool) -> u32
    ensures { result ≡ (if anywhere then x % 2147483647 * 4099 % 4294967296 else x % max below 1) }
{
    if anywhere {
        return far(x);
    }
    (x % u64::from(below.max(1))) as u32
}
