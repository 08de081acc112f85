// Machine words of 64 bits as sets of the numbers 0 to 63.
#![tactic(auto)]

ghost use Rattle.std.specs.Prelude.{◌≡◌};
ghost use Rattle.std.specs.Iterator.{at_most};
ghost use Rattle.sets.specs.Sets.{member, union, difference, within, meet, with, without, least, TakesLeast};

// Whether k is a member of s.
pub fn member(s: u64, k: usize) -> bool
    ensures { result ≡ member s k }
{
    k < 64 && (s >> (k % 64)) % 2 == 1
}

// s with k.
pub fn with(s: u64, k: usize) -> u64
    ensures { result ≡ with 64 s k }
{
    if k < 64 { s | (1u64 << k) } else { s }
}

// s without k.
pub fn without(s: u64, k: usize) -> u64
    ensures { result ≡ without 64 s k }
{
    if k < 64 { s ^ (s & (1u64 << k)) } else { s }
}

// The numbers of s and those of t.
pub fn union(s: u64, t: u64) -> u64
    ensures { result ≡ union s t }
{
    s | t
}

// The numbers of s that are not in t.
pub fn difference(s: u64, t: u64) -> u64
    ensures { result ≡ difference s t }
{
    s ^ (s & t)
}

// Whether every number of s is one of t.
pub fn within(s: u64, t: u64) -> bool
    ensures { result ≡ within s t }
{
    (s | t) == t
}

// Whether s and t have a number in common.
pub fn meet(s: u64, t: u64) -> bool
    ensures { result ≡ meet s t }
{
    s & t != 0
}

// The least member of s, and 64 where it has none. No option: it is asked of sets that have a member, or where 64, which is in no set, serves as well.
pub fn least(s: u64) -> usize
    ensures { result ≡ least 64 s }
{
    u64::trailing_zeros(s) as usize
}

// s without its least member.
pub fn without_least(s: u64) -> u64
    ensures { result ≡ without 64 s (least 64 s) }
{
    s & std::num::wrapping_sub_u64(s, 1)
}

// A set of which the members are taken one after the other, from the least on.
#[derive(Drop)]
pub struct Members(pub u64);

impl Iterator for Members {
    type Item = usize;

    ghost next_gives = { λ s taken t. TakesLeast s.0 taken t.0 };

    ghost remaining = { λ s. at_most s.0 };

    fn next(&mut self) -> Option<usize> {
        if self.0 == 0 {
            return None;
        }
        let k = least(self.0);
        self.0 = without_least(self.0);
        Some(k)
    }
}
