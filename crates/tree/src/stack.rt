// A stack of nodes of a tree, over memory that is lent to it: a place for each node that a tree can have, and for one
// leaf more. In a clause it is the list of what it holds, and the last item of the list is on top. [P1]
ghost use Rattle.std.specs.Prelude.{◌≡◌, ◌<◌, ◌↔◌, [], ◌∷◌, ◌++◌, length, IsSome};
ghost use Rattle.std.specs.Option.{option_to_list};

use std::marker::Model;
use triangle::SIDE;

// The places, and how many of them hold something: those from the first on. What lies behind them means nothing. The
// places are lent and not a part of the struct, so that the depth can stay in a register: with both in one piece of
// memory a schedule's tables took some 70% longer.
#[derive(Drop)]
pub struct Stack<'a> {
    places: &'a mut [u8; SIDE],
    depth: usize,
}

impl<'a> Model for Stack<'a> {
    ghost use Rattle.std.specs.Prelude.{◌≡◌, List, ℕ, ◌≤◌, length, take};
    ghost use Rattle.triangle.specs.declared.TheConstants.{SIDE};

    ghost Value = { List ℕ };

    ghost view = { λ s. take s.depth s.places.now };

    ghost invariant = { λ s. (s.depth ≤ SIDE) × (length s.places.now ≡ SIDE) };
}

impl<'a> Stack<'a> {
    // A stack that holds nothing, whatever is in the places. [P13]
    #[inline]
    pub fn over(places: &'a mut [u8; SIDE]) -> Stack<'a>
        ensures { result ≡ [] }
    {
        Stack { places, depth: 0 }
    }

    // Puts a node on top. There has to be a place for it. [P13]
    #[inline]
    pub fn push(&mut self, node: u8)
        requires { length self.old < SIDE }
        ensures { self.new ≡ self.old ++ node ∷ [] }
    {
        self.places[self.depth] = node;
        self.depth += 1;
    }

    // Takes the top away and answers it, if the stack holds something.
    #[inline]
    pub fn pop(&mut self) -> Option<u8>
        ensures items { self.old ≡ self.new ++ option_to_list result }
        ensures variant { IsSome result ↔ (0 < length self.old) }
    {
        if self.depth == 0 {
            return None;
        }
        self.depth -= 1;
        Some(self.places[self.depth])
    }
}
