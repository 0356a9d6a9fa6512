// How many records a tree has.
ghost use Rattle.walk.specs.Contract.{SomeTree, Extends, StepsOver};

pub fn extent_at(all: &[u32], at: usize) -> usize
    requires { SomeTree all.now at }
    ensures { Extends all.now at result }
{
    let mut open = 1;
    let mut i = at;
    // No range: where the tree ends, only its records tell.
    while 0 < open {
        open = open - 1 + tree::record::known_children(all, i);
        i += 1;
    }
    i - at
}

// How far on the next tree starts, where so many are to come. Where none is, no record of this one is passed (docs/SPEED.md, 47).
pub fn step_over(all: &[u32], at: usize, left: usize) -> usize
    requires { SomeTree all.now at }
    ensures { StepsOver all.now at left result }
{
    if left == 0 {
        return 0;
    }
    extent_at(all, at)
}
