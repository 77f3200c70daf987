// The three tables of a tree, which go together: those of the left children, of the right ones and of the parents.
use show::Beats;
use std::fmt;

#[derive(Clone, Copy)]
pub struct Tables<'a> {
    pub left: &'a [u8],
    pub right: &'a [u8],
    pub parent: &'a [u8],
}

// One after the other.
impl fmt::Display for Tables<'_> {
    fn fmt<W: fmt::Write>(&self, f: &mut fmt::Formatter<W>) -> fmt::Result {
        write!(
            f,
            "{} {} {}",
            Beats(self.left),
            Beats(self.right),
            Beats(self.parent)
        )
    }
}
