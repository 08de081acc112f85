// What is read from the parts of the index, and what is stored there. Each method says where its part lies among the words that contracts speak of.
ghost use Rattle.std.specs.Prelude.{◌≡◌, ◌+◌, ◌<◌, get_or, set};
ghost use Rattle.index.specs.Tables.{running_set};
ghost use Rattle.index.specs.Places.{group_at, places_at};

use crate::Index;

impl Index {
    // The children of k.
    pub(crate) fn children(&self, k: usize) -> u64
        requires { k < 64 }
        ensures { result ≡ get_or self.now k 0 }
    {
        self.children[k]
    }

    pub(crate) fn put_children(&mut self, k: usize, numbers: u64)
        requires { k < 64 }
        ensures { self.new ≡ set self.old k numbers }
    {
        self.children[k] = numbers;
    }

    // Number k with its ancestors.
    pub(crate) fn line(&self, k: usize) -> u64
        requires { k < 64 }
        ensures { result ≡ get_or self.now (64 + k) 0 }
    {
        self.lines[k]
    }

    pub(crate) fn put_line(&mut self, k: usize, numbers: u64)
        requires { k < 64 }
        ensures { self.new ≡ set self.old (64 + k) numbers }
    {
        self.lines[k] = numbers;
    }

    // The running numbers.
    pub(crate) fn running(&self) -> u64
        ensures { result ≡ running_set self.now }
    {
        self.running
    }

    pub(crate) fn put_running(&mut self, numbers: u64)
        ensures { self.new ≡ set self.old 128 numbers }
    {
        self.running = numbers;
    }

    // The group of head k.
    pub(crate) fn group(&self, k: usize) -> u64
        requires { k < 64 }
        ensures { result ≡ group_at self.now k }
    {
        self.groups[k]
    }

    pub(crate) fn put_group(&mut self, k: usize, numbers: u64)
        requires { k < 64 }
        ensures { self.new ≡ set self.old (129 + k) numbers }
    {
        self.groups[k] = numbers;
    }

    // The places of k.
    pub(crate) fn places(&self, k: usize) -> u64
        requires { k < 64 }
        ensures { result ≡ places_at self.now k }
    {
        self.places[k]
    }

    pub(crate) fn put_places(&mut self, k: usize, places: u64)
        requires { k < 64 }
        ensures { self.new ≡ set self.old (193 + k) places }
    {
        self.places[k] = places;
    }
}
