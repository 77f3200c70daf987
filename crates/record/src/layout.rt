// How each kind of record is laid out: the manual, "Order record". A kind is a row of `of_kind`; `write` and the
// crate `reader` go by it. The contracts cite specs/Layout. [P1]
ghost use Rattle.std.specs.Prelude.{◌≡◌};
ghost use Rattle.record.specs.Layout.{layout_of, counts_at};

// By which numbering a record holds a number: the catalogue's, or the one that counts from t ones then s zeros.
#[derive(Clone, Copy)]
pub enum Numbering {
    Catalogue,
    FromTop,
}

// What a record holds after its counts, and the byte at which the counts stand: t there, s after it.
#[derive(Clone, Copy)]
pub enum Layout {
    // the number of the form, by a numbering
    Numbered(usize, Numbering),
    // its beats, packed
    Beaten(usize),
    // no layout: the kind is unknown
    Unknown,
}

impl Layout {
    // The byte at which t stands; 0 where the kind is unknown.
    pub fn counts_at(self) -> usize
        ensures { result ≡ counts_at self }
    {
        match self {
            Layout::Numbered(at, _) => at,
            Layout::Beaten(at) => at,
            Layout::Unknown => 0,
        }
    }
}

// The bytes of a number.
pub const NUMBER: usize = 8;

// The layout of a kind, which is a number, since a record or a host may have any. Kind 3 is laid out like kind 1, and
// holds the number by another numbering. [K3]
pub fn of_kind(kind: u64) -> Layout
    ensures { result ≡ layout_of kind }
{
    match kind {
        1 => Layout::Numbered(4, Numbering::FromTop),
        2 => Layout::Beaten(4),
        3 => Layout::Numbered(4, Numbering::Catalogue),
        _ => Layout::Unknown,
    }
}
