#![tactic(auto)]
// The types of the store that its callers see: names, the space of a call, a call, an answer, a pair of the answer list.
// The definitions over them, in the order of document 01, are in specs/.
ghost use Rattle.std.specs.Prelude.{◌≡◌};

// The value that is none.
pub const NIL: u32 = 0;

// The greatest name.
pub const MOST_NAME: u32 = u16::MAX as u32;

// How many names there are, with 0, which is none.
pub const NAME_COUNT: u32 = 65536;

// "Nodes, edges and spaces are named by 1 to 65,535 (16 bits), separately": one type for each sort of name.
// By hand: three types and no generic one, the form that the specification names for this place.
// Those of nodes and edges have the layout of C, for the pairs of a list that C or Rust lends.
#[repr(C)]
#[derive(Clone, Copy)]
pub struct NodeName(pub u16);

#[repr(C)]
#[derive(Clone, Copy)]
pub struct EdgeName(pub u16);

#[derive(Clone, Copy, PartialEq, Eq)]
pub struct SpaceName(pub u16);

// "The space of a call is either UNIVERSE or a number", and by request 1 it "gets a third form, nothing".
#[derive(Clone, Copy, PartialEq, Eq)]
pub enum Space {
    // The universal space, which has no name.
    Universe,
    // The space of that number.
    Numbered(SpaceName),
    // No selection: nothing is looked up in the graph.
    Nothing,
}

// "Call fields, every name a field of 16 bits: n first node, g edge, m second node, v value, s space."
#[derive(Clone, Copy)]
pub struct Call {
    // Any number; 1 to 57 are operators.
    pub operator: u32,
    pub n: NodeName,
    pub g: EdgeName,
    pub m: NodeName,
    pub v: u32,
    pub s: Space,
}

// "The middle letter O, I or A chooses" which pairs of a node are meant.
#[derive(Clone, Copy)]
pub enum Direction {
    Outpointing,
    Inpointing,
    Adjacent,
}

// What C, B, V and X work on.
#[derive(Clone, Copy)]
pub enum Object {
    // The pair (g,m) of n.
    P(Direction),
    // Node n.
    UN,
    // Space s.
    US,
}

// What D removes.
#[derive(Clone, Copy)]
pub enum Removal {
    // A pair's edge.
    P(Direction),
    // The edges of all pairs of n.
    G(Direction),
    // The edges of those with edge g.
    GG(Direction),
    // The edges of those with node m.
    GN(Direction),
    // The nodes of all pairs of n.
    N(Direction),
    // The nodes of those with edge g.
    NG(Direction),
    // Node n.
    UN,
    // Space s.
    US,
}

// What S lists.
#[derive(Clone, Copy)]
pub enum Listing {
    // The pairs of n.
    P(Direction),
    // Their edge names.
    G(Direction),
    // Edge names of pairs with node m.
    GN(Direction),
    // Their nodes.
    N(Direction),
    // Nodes of pairs with edge g.
    NG(Direction),
    // The nodes of s.
    UN,
    // All spaces.
    US,
    // The spaces that hold n.
    USn,
}

// What an operator does, and to what.
#[derive(Clone, Copy)]
pub enum Operator {
    // C
    Create(Object),
    // B
    Bind(Object),
    // V
    Value(Object),
    // X
    Exists(Object),
    // D
    Destroy(Removal),
    // S
    List(Listing),
}

// "The number fixes the arguments that are read": which fields of a call count.
#[derive(Clone, Copy)]
pub struct Reads {
    pub n: bool,
    pub g: bool,
    pub m: bool,
    pub v: bool,
    pub s: bool,
}

// What an operator asks for before its step: where it is not there, the call is stopped. It asks for node m where it reads m.
#[derive(Clone, Copy)]
pub struct Asks {
    // A selection, be it UNIVERSE or a numbered space (12).
    pub selection: bool,
    // A numbered space and not UNIVERSE (4).
    pub number: bool,
    // That its space is there (5).
    pub space: bool,
    // That node n is in its space (6).
    pub node: bool,
    // That node n is in UNIVERSE (6).
    pub universe: bool,
    // That there is such an edge (8).
    pub edge: bool,
}

// What an operator's number fixes: one row of the table of operators.
#[derive(Clone, Copy)]
pub struct Row {
    pub reads: Reads,
    pub asks: Asks,
    // Does it add in UNIVERSE too what it adds in its space.
    pub both: bool,
    // Is the space its first argument.
    pub first: bool,
    // May a script leave its space out.
    pub optional: bool,
}

// The fields of a call as numbers; UNIVERSE is 0.
#[derive(Clone, Copy)]
pub struct Fields {
    pub n: u32,
    pub g: u32,
    pub m: u32,
    pub v: u32,
    pub s: u32,
}

// What the store reads of a call: the row of its number, its operator, and its fields as numbers.
#[derive(Clone, Copy)]
pub struct Decoded {
    pub row: Row,
    pub operator: Operator,
    pub fields: Fields,
}

// "Where a call is stopped": the conditions, by their numbers.
#[derive(Clone, Copy, PartialEq, Eq)]
pub enum Refusal {
    // The buffer is no store; of preparing, its length is none that a store has.
    NotAStore = 1,
    // The operator is none of 1 to 57.
    NoOperator = 2,
    // A name that is read is 0.
    ZeroName = 3,
    // 55 on UNIVERSE.
    UniverseDestroyed = 4,
    // The space is absent.
    SpaceAbsent = 5,
    // Node n is absent.
    NodeAbsent = 6,
    // Node m is absent.
    SecondAbsent = 7,
    // There is no such edge.
    EdgeAbsent = 8,
    // The answer list is too short.
    ListTooShort = 9,
    // There are too few free records.
    Full = 10,
    // A line of a script that does not read as a call, or a script that is too long.
    Unreadable = 11,
    // The operator asks for a selection, and there is none.
    NoSelection = 12,
}

impl From<Refusal> for u32 {
    ghost use Rattle.model.specs.Numbered.{number_of};

    ghost from_gives = { λ refusal number. number ≡ number_of refusal };

    fn from(refusal: Refusal) -> u32 {
        refusal as u32
    }
}

// "C, B and D return the first argument; V a value; X yes or no; S a count k"; a call that is stopped gives its `Refusal` in place of an answer.
// By request 2 an answer "from C or D carries the number of tuples added or removed"; the first argument is a node's name, or a space's (0 for UNIVERSE).
#[derive(Clone, Copy)]
pub enum Answer {
    // B: the first argument.
    Name(u16),
    // C: the first argument, and how many tuples were added.
    Added(u16, u32),
    // D: the first argument, and how many tuples were removed.
    Removed(u16, u32),
    // A value; 0 is NIL.
    Value(u32),
    // Yes or no.
    YesNo(bool),
    // How many pairs stand in the first places of the answer list.
    List(usize),
}

// "A tuple has a key (s, n, g, m)": the four key words of a record.
#[derive(Clone, Copy)]
pub struct Key {
    pub s: u32,
    pub n: u32,
    pub g: u32,
    pub m: u32,
}

// "The answer list is a lent list of pairs (edge, node)."
#[repr(C)]
#[derive(Clone, Copy)]
pub struct Pair {
    pub edge: EdgeName,
    pub node: NodeName,
}
