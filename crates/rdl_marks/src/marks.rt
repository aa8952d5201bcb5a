//! A body as pieces of what it was.
ghost use Rattle.std.specs.Prelude.{◌≡◌, length};
ghost use Rattle.rdl_marks.specs.Marks.{no_firsts, no_marks};
ghost use Rattle.rdl_marks.specs.View.{firsts_of};

use rdl_text::name::Name;
use rdl_tree::description::Item;
use rdl_tree::shell::Shell;
use rdl_tree::target::Target;
use rdl_tree::value::Value;
use std::alloc::Global;
use std::marker::Model;

/// What became of an item that was there before: what stood first in the place of each of its parts that was exchanged,
/// whether it was moved, and what was changed inside it.
#[cycle(marks)]
#[derive(Drop)]
pub struct Mark<'a> {
    pub shell: Option<&'a Shell>,
    /// The name of the definition.
    pub defined: Option<&'a Name>,
    pub type_name: Option<&'a Name>,
    pub value: Option<&'a Value>,
    pub target: Option<&'a Target>,
    pub is_moved: bool,
    pub inside: BodyMarks<'a>,
}

/// Items of a body that stand one after the other.
#[cycle(marks)]
#[derive(Drop)]
pub enum Piece<'a> {
    /// So many items that weren't there before.
    New(usize),
    /// The items from the first number up to the second one, as they were and in the order in which they stood.
    Kept(usize, usize),
    /// The item that had this number, and what became of it.
    Marked(usize, Mark<'a>),
}

/// An item that is gone.
#[cycle(marks)]
#[derive(Drop)]
pub struct Gone<'a> {
    /// The item as it was when it went.
    pub item: &'a Item,
    /// The number that it had at first.
    pub number: usize,
    /// What became of it until it went.
    pub mark: Mark<'a>,
}

/// Pieces that stand one after another, with a gap among them, to which pieces are put and from which they are taken. It goes
/// to an item in as many steps as there are pieces on the way.
#[cycle(marks)]
#[derive(Drop)]
pub struct Pieces<'a> {
    /// Those before the gap.
    pub(crate) front: Vec<Piece<'a>>,
    /// Those behind it, of which the last one is the next.
    pub(crate) back: Vec<Piece<'a>>,
    /// How many items those before it have.
    pub(crate) before: usize,
}

/// What became of a body: its items are those of the pieces, and behind them all that stood in it from a number on. A
/// contract sees `Marks`.
#[cycle(marks)]
#[derive(Drop)]
pub struct BodyMarks<'a> {
    pub pieces: Pieces<'a>,
    /// The number from which on all items follow behind the pieces.
    pub behind: usize,
    /// The items that are gone.
    pub gone: Vec<Gone<'a>>,
}

impl<'a> Model for BodyMarks<'a> {
    ghost use Rattle.rdl_marks.specs.Marks.{Marks, marks_count};
    ghost use Rattle.rdl_marks.specs.Codes.{coded_marks};

    ghost Value = { Marks };

    ghost coded = { coded_marks };

    ghost use Rattle.rdl_marks.specs.View.{in_order, IsCounted, told, marks_of};

    ghost view = { λ a. marks_of (told (in_order a.pieces) a.behind a.gone.items) };

    ghost invariant = { λ a. IsCounted a.pieces };

    ghost size = { marks_count };

    ghost use Rattle.rdl_marks.specs.Falls.{deep_le-count};

    ghost size_decreases = { λ a h. deep_le-count a.pieces a.behind a.gone.items };
}

impl<'a> Mark<'a> {
    /// That of an item that is as it was.
    pub fn none(alloc: Global) -> Mark<'a>
        ensures firsts { firsts_of result ≡ no_firsts }
        ensures inside { result.inside ≡ no_marks }
    {
        Mark {
            shell: None,
            defined: None,
            type_name: None,
            value: None,
            target: None,
            is_moved: false,
            inside: BodyMarks::new(alloc),
        }
    }
}

impl<'a> BodyMarks<'a> {
    /// Those of a body in which nothing is changed.
    pub fn new(alloc: Global) -> BodyMarks<'a>
        ensures { result ≡ no_marks }
    {
        BodyMarks {
            pieces: Pieces::new(alloc),
            behind: 0,
            gone: Vec::new(alloc),
        }
    }
}
