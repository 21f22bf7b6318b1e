#![tactic(auto)]
// A number's row and its operator, and the refusals that depend on the call alone.
// An inner layer: what its functions require, their callers have shown; only the entry refuses.
ghost use Rattle.std.specs.Prelude.{false, cond, Some, None, ◌≡◌, not, ◌&&◌, ◌||◌, eqb, ◌-◌, ◌<◌, ◌≤◌};
ghost use Rattle.model.specs.Operators.{within, operator_of, reads_of, asks_of, row_of};
ghost use Rattle.model.specs.Keys.{most_name};
ghost use Rattle.model.specs.Steps.{space_number, fields_of, decoded as decoded_call, first_argument};
ghost use Rattle.model.specs.Refusals.{zero_space, is_universe, is_nothing, selects_nothing, no_operator, zero_name, lacks_space, destroys_universe};
ghost use Rattle.model.specs.Machine.{FieldsFit};
ghost use Rattle.operators.specs.Directions.{turn};
ghost use Rattle.operators.specs.Known.{known_operator};

use model::{
    Asks, Call, Decoded, Direction, Fields, Listing, Object, Operator, Reads, Removal, Row, Space,
    SpaceName,
};

// For each field, whether it is read.
fn fields(n: bool, g: bool, m: bool, v: bool, s: bool) -> Reads
    ensures { result ≡ record { n = n; g = g; m = m; v = v; s = s } }
{
    Reads { n, g, m, v, s }
}

// The fields of a call that its operator reads.
#[tactic(auto, unfolding(model::specs::Operators::reads_of))]
pub fn reads_of(o: u32) -> Reads
    ensures { result ≡ reads_of o }
{
    match o {
        1..=3 | 7..=14 => fields(true, true, true, false, true),
        4..=6 => fields(true, true, true, true, true),
        15..=17 | 24..=26 | 30..=35 | 39..=41 => fields(true, false, false, false, true),
        18..=20 | 27..=29 | 42..=44 => fields(true, true, false, false, true),
        21..=23 | 36..=38 => fields(true, false, true, false, true),
        45 | 47..=49 => fields(true, false, false, false, true),
        46 => fields(true, false, false, true, true),
        50..=51 | 53..=55 => fields(false, false, false, false, true),
        52 => fields(false, false, false, true, true),
        57 => fields(true, false, false, false, false),
        _ => fields(false, false, false, false, false),
    }
}

// Is a number one of a range, both ends in it.
#[tactic(auto, unfolding(model::specs::Operators::within))]
fn is_within(low: u32, high: u32, o: u32) -> bool
    ensures { result ≡ within low high o }
{
    (low..=high).contains(&o)
}

// What an operator asks for; `reads` are the fields that it reads.
fn asks_of(o: u32, reads: Reads) -> Asks
    requires { reads ≡ reads_of o }
    ensures { result ≡ asks_of o }
{
    Asks {
        selection: is_within(7, 8, o) | (o == 47) | is_within(51, 55, o),
        number: o == 55,
        space: reads.s & !((o == 51) | is_within(54, 55, o)),
        node: is_within(1, 44, o) | is_within(46, 47, o),
        universe: o == 57,
        edge: is_within(4, 8, o),
    }
}

// "For 1–50 the last, s, may be missing" in a script.
pub fn space_optional(o: u32) -> bool
    ensures { result ≡ (row_of o).optional }
{
    is_within(1, 50, o)
}

// The row of a number: all that the number fixes.
pub fn row_of(o: u32) -> Row
    ensures { result ≡ row_of o }
{
    let reads = reads_of(o);
    let asks = asks_of(o, reads);
    Row {
        reads,
        asks,
        both: is_within(1, 3, o) | (o == 45),
        first: is_within(51, 52, o) | (o == 55),
        optional: space_optional(o),
    }
}

// Which pairs an operator means, by its place in a row that begins with number first: O, I, A.
#[tactic(auto, unfolding(crate::specs::Directions::turn))]
fn direction(first: u32, o: u32) -> Direction
    requires { first ≤ o }
    ensures { result ≡ turn (o - first) }
{
    match o - first {
        0 => Direction::Outpointing,
        1 => Direction::Inpointing,
        _ => Direction::Adjacent,
    }
}

// 1 to 11: C, B, V and X of pairs.
// By hand: a match here and in the two functions below, since each row of the table has a constructor of its own.
#[tactic(auto, unfolding(model::specs::Operators::operator_of))]
fn pair_operator(o: u32) -> Operator
    requires { (1 ≤ o) × (o < 12) }
    ensures { result ≡ operator_of o }
{
    match o {
        1..=3 => Operator::Create(Object::P(direction(1, o))),
        4..=6 => Operator::Bind(Object::P(direction(4, o))),
        7..=8 => Operator::Value(Object::P(direction(7, o))),
        _ => Operator::Exists(Object::P(direction(9, o))),
    }
}

// 12 to 29: D of edges and nodes of pairs.
#[tactic(auto, unfolding(model::specs::Operators::operator_of))]
fn pair_removal(o: u32) -> Operator
    requires { (12 ≤ o) × (o < 30) }
    ensures { result ≡ operator_of o }
{
    match o {
        12..=14 => Operator::Destroy(Removal::P(direction(12, o))),
        15..=17 => Operator::Destroy(Removal::G(direction(15, o))),
        18..=20 => Operator::Destroy(Removal::GG(direction(18, o))),
        21..=23 => Operator::Destroy(Removal::GN(direction(21, o))),
        24..=26 => Operator::Destroy(Removal::N(direction(24, o))),
        _ => Operator::Destroy(Removal::NG(direction(27, o))),
    }
}

// 30 to 44: S of pairs.
#[tactic(auto, unfolding(model::specs::Operators::operator_of))]
pub fn pair_listing(o: u32) -> Operator
    requires { (30 ≤ o) × (o < 45) }
    ensures { result ≡ operator_of o }
{
    match o {
        30..=32 => Operator::List(Listing::P(direction(30, o))),
        33..=35 => Operator::List(Listing::G(direction(33, o))),
        36..=38 => Operator::List(Listing::GN(direction(36, o))),
        39..=41 => Operator::List(Listing::N(direction(39, o))),
        _ => Operator::List(Listing::NG(direction(42, o))),
    }
}

// From 45 on: the operators of nodes and spaces. Above 57 the table has none, and what it gives there has no effect: condition 2 stops such a call.
#[tactic(auto, unfolding(model::specs::Operators::operator_of, model::specs::Operators::table))]
pub fn other_operator(o: u32) -> Operator
    requires { 45 ≤ o }
    ensures { result ≡ operator_of o }
{
    match o {
        45 => Operator::Create(Object::UN),
        46 => Operator::Bind(Object::UN),
        47 => Operator::Value(Object::UN),
        48 => Operator::Exists(Object::UN),
        49 => Operator::Destroy(Removal::UN),
        50 => Operator::List(Listing::UN),
        51 => Operator::Create(Object::US),
        52 => Operator::Bind(Object::US),
        53 => Operator::Value(Object::US),
        54 => Operator::Exists(Object::US),
        55 => Operator::Destroy(Removal::US),
        56 => Operator::List(Listing::US),
        57 => Operator::List(Listing::USn),
        _ => Operator::List(Listing::US),
    }
}

// The operator of a number; what it is for 0 and above 57 has no effect, since condition 2 stops a call with such a number.
#[tactic(auto, unfolding(model::specs::Operators::operator_of, model::specs::Operators::table))]
pub fn operator_of(o: u32) -> Operator
    ensures { result ≡ operator_of o }
{
    match o {
        0 => Operator::Create(Object::P(Direction::Outpointing)),
        1..=11 => pair_operator(o),
        12..=29 => pair_removal(o),
        30..=44 => pair_listing(o),
        _ => other_operator(o),
    }
}

// Is a number an operator's; where it is not, condition 2 stops the call.
fn is_known(o: u32) -> bool
    ensures { result ≡ within 1 57 o }
{
    is_within(1, 57, o)
}

// The operator of a number; none where it is not 1 to 57.
#[tactic(auto, unfolding(crate::specs::Known::known_operator))]
pub fn known_operator(o: u32) -> Option<Operator>
    ensures { result ≡ known_operator o }
{
    if !is_known(o) {
        return None;
    }
    Some(operator_of(o))
}

// The same for a number from 45 on: the rows of pairs are not looked through.
#[tactic(auto, unfolding(crate::specs::Known::known_operator))]
pub fn known_other(o: u32) -> Option<Operator>
    requires { 45 ≤ o }
    ensures { result ≡ known_operator o }
{
    if !is_known(o) {
        return None;
    }
    Some(other_operator(o))
}

// Is the space a number, and that 0.
#[tactic(auto, unfolding(model::specs::Refusals::zero_space))]
fn zero_space(s: Space) -> bool
    ensures { result ≡ zero_space s }
{
    s == Space::Numbered(SpaceName(0))
}

// Is the space UNIVERSE.
#[tactic(auto, unfolding(model::specs::Refusals::is_universe))]
fn is_universe(s: Space) -> bool
    ensures { result ≡ is_universe s }
{
    s == Space::Universe
}

// Is the space nothing.
#[tactic(auto, unfolding(model::specs::Refusals::is_nothing))]
fn is_nothing(s: Space) -> bool
    ensures { result ≡ is_nothing s }
{
    s == Space::Nothing
}

// A name as a word.
fn name_word(x: u16) -> u32
    ensures value { result ≡ x }
    ensures fit { x ≤ most_name }
{
    u32::from(x)
}

// The name of a space; 0 for UNIVERSE, and for nothing, without effect: no tuple and no answer is made with it.
// By hand: no Option, since fields are numbers in which UNIVERSE is 0.
#[tactic(auto, unfolding(model::specs::Steps::space_number))]
fn space_name(s: Space) -> u16
    ensures { result ≡ space_number s }
{
    match s {
        Space::Numbered(x) => x.0,
        Space::Universe | Space::Nothing => 0,
    }
}

// The fields of a call as numbers; their types keep every name to 16 bits.
pub fn fields_of(c: Call) -> Fields
    ensures value { result ≡ fields_of c }
    ensures fit { FieldsFit (fields_of c) }
{
    Fields {
        n: name_word(c.n.0),
        g: name_word(c.g.0),
        m: name_word(c.m.0),
        v: c.v,
        s: name_word(space_name(c.s)),
    }
}

// What the store reads of a call, where `row` and `operator` are those of its number.
fn decode_as(c: Call, row: Row, operator: Operator) -> Decoded
    requires { (row ≡ row_of c.operator) × (operator ≡ operator_of c.operator) }
    ensures value { result ≡ decoded_call c }
    ensures fit { FieldsFit (fields_of c) }
{
    let fields = fields_of(c);
    Decoded {
        row,
        operator,
        fields,
    }
}

// The same of a call with any number.
pub fn decode(c: Call, row: Row) -> Decoded
    requires { row ≡ row_of c.operator }
    ensures value { result ≡ decoded_call c }
    ensures fit { FieldsFit (fields_of c) }
{
    decode_as(c, row, operator_of(c.operator))
}

// Is the space of the call read, and nothing.
#[tactic(auto, unfolding(model::specs::Refusals::selects_nothing))]
pub fn selects_nothing(c: Call, row: Row) -> bool
    requires { row ≡ row_of c.operator }
    ensures { result ≡ selects_nothing c }
{
    row.reads.s && is_nothing(c.s)
}

// Condition 3: a name that is read is 0.
#[tactic(auto, unfolding(model::specs::Refusals::zero_name))]
pub fn zero_name(c: Call, r: Reads) -> bool
    requires { r ≡ reads_of c.operator }
    ensures { result ≡ zero_name c }
{
    r.n && c.n.0 == 0 || r.g && c.g.0 == 0 || r.m && c.m.0 == 0 || r.s && zero_space(c.s)
}

// Condition 12: the operator asks for a selection, and there is none.
#[tactic(auto, unfolding(model::specs::Refusals::lacks_space))]
pub fn lacks_space(c: Call, asks: Asks, nothing: bool) -> bool
    requires { (asks ≡ asks_of c.operator) × (nothing ≡ selects_nothing c) }
    ensures { result ≡ lacks_space c }
{
    nothing && asks.selection
}

// Condition 4: the operator asks for a numbered space, and the space is UNIVERSE.
#[tactic(auto, unfolding(model::specs::Refusals::destroys_universe))]
pub fn destroys_universe(c: Call, asks: Asks) -> bool
    requires { asks ≡ asks_of c.operator }
    ensures { result ≡ destroys_universe c }
{
    asks.number && is_universe(c.s)
}

// What C, B and D return.
#[tactic(auto, unfolding(model::specs::Steps::first_argument))]
pub fn first_argument(c: Call, row: Row) -> u16
    requires { row ≡ row_of c.operator }
    ensures { result ≡ first_argument (decoded_call c) }
{
    if row.first { space_name(c.s) } else { c.n.0 }
}

// A call, and what the store reads of it.
#[derive(Clone, Copy)]
pub struct DecodedCall {
    pub call: Call,
    pub decoded: Decoded,
    pub ghost told: { decoded ≡ decoded_call call },
    pub ghost fit: { FieldsFit (fields_of call) },
}

impl DecodedCall {
    ghost use Rattle.operators.specs.DecodedCalls.{call_decoded};

    // The call, decoded; none where its number is no operator's: condition 2.
    pub fn of(call: Call) -> Option<DecodedCall>
        ensures { call_decoded result ≡ cond (no_operator call) None (Some call) }
    {
        let operator = known_operator(call.operator)?;
        let row = row_of(call.operator);
        let decoded = decode_as(call, row, operator);
        Some(DecodedCall { call, decoded })
    }

    // Is the space of the call read, and nothing.
    pub fn selects_nothing(self) -> bool
        ensures { result ≡ selects_nothing self.call }
    {
        selects_nothing(self.call, self.decoded.row)
    }

    // Condition 3: a name that is read is 0.
    pub fn zero_name(self) -> bool
        ensures { result ≡ zero_name self.call }
    {
        zero_name(self.call, self.decoded.row.reads)
    }

    // Condition 12: the operator asks for a selection, and there is none.
    pub fn lacks_space(self) -> bool
        ensures { result ≡ lacks_space self.call }
    {
        lacks_space(self.call, self.decoded.row.asks, self.selects_nothing())
    }

    // Condition 4: the operator asks for a numbered space, and the space is UNIVERSE.
    pub fn destroys_universe(self) -> bool
        ensures { result ≡ destroys_universe self.call }
    {
        destroys_universe(self.call, self.decoded.row.asks)
    }

    // What C, B and D return.
    pub fn first_argument(self) -> u16
        ensures { result ≡ first_argument self.decoded }
    {
        first_argument(self.call, self.decoded.row)
    }
}
