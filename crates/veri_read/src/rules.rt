ghost use Rattle.std.specs.Prelude.{◌≡◌};
ghost use Rattle.veri_read.specs.Rules.{rule, head_rule, declaration_rule, assign_rule, target_rule, clock_rule, next_rule};

use crate::literal::Kind;
use crate::symbol::Symbol;

/// Where a text stands in the grammar: what may come next.
#[derive(Clone, Copy)]
pub enum Place {
    /// `module`
    Start,
    /// The module's name.
    ModuleName,
    /// `(`
    PortsOpen,
    /// The first port, or `)`.
    FirstPort,
    /// Behind a port: `,` or `)`.
    PortEnd,
    /// A further port.
    NextPort,
    /// The `;` behind the ports.
    HeadEnd,
    /// A declaration, an assign, the block of the registers, or `endmodule`.
    Declarations,
    /// A declared name.
    DeclaredName,
    /// Behind a declared name: `,` or `;`.
    DeclaredEnd,
    /// The name that an assign assigns.
    Target,
    /// `=`
    Equal,
    /// The first literal of an assign.
    First,
    /// The name behind its `~`.
    FirstName,
    /// Behind the first literal: `&` for a wire, `?` for a pad, `;` for an output.
    FirstEnd,
    /// The `1'bz` of a pad.
    Floating,
    /// The `:` of a pad.
    Colon,
    /// The second literal.
    Second,
    /// The name behind its `~`.
    SecondName,
    /// The `;` behind it.
    SecondEnd,
    /// An assign, the block of the registers, or `endmodule`.
    Assigns,
    /// `@`
    BlockAt,
    /// `(`
    BlockOpen,
    /// `posedge`
    Edge,
    /// The clock.
    Clock,
    /// `)`
    BlockClose,
    /// `begin`
    BlockBegin,
    /// The name of a register, or `end`.
    Registers,
    /// `<=`
    Arrow,
    /// The next literal of a register.
    Next,
    /// The name behind its `~`.
    NextName,
    /// The `;` behind it.
    NextEnd,
    /// `endmodule` behind the block.
    BlockDone,
    /// Nothing.
    Done,
}

/// What a token does, beyond its place in the grammar.
#[derive(Clone, Copy)]
pub enum Act {
    Pass,
    /// Names the module.
    NameModule,
    /// Lists a port.
    ListPort,
    /// Begins declarations of a kind.
    OfKind(Kind),
    /// Declares a name.
    Declare,
    /// Ends the declarations.
    EndDeclarations,
    /// Begins the assign of a name.
    BeginAssign,
    /// Is a constant literal.
    Constant(bool),
    /// Negates the literal's name.
    Negate,
    /// Is a literal's name in an assign.
    Use,
    /// Ends an assign.
    EndAssign,
    /// Is the clock.
    NameClock,
    /// Begins the line of a register.
    BeginNext,
    /// Is a literal's name in the line of a register.
    UseNext,
    /// Ends the line of a register.
    EndNext,
    /// Ends the module.
    EndModule,
}

/// Where the text stands behind a token, and what the token does; none where no text goes on with it. `kind`
/// is that of the last target of an assign, which its form must suit.
pub(crate) fn rule(kind: Kind, place: Place, symbol: Symbol) -> Option<(Place, Act)>
    ensures { result ≡ rule kind place symbol }
{
    match place {
        Place::Start
        | Place::ModuleName
        | Place::PortsOpen
        | Place::FirstPort
        | Place::PortEnd
        | Place::NextPort
        | Place::HeadEnd => head_rule(place, symbol),
        Place::Declarations | Place::DeclaredName | Place::DeclaredEnd | Place::Assigns => {
            declaration_rule(place, symbol)
        }
        Place::FirstEnd => target_rule(kind, symbol),
        Place::Target
        | Place::Equal
        | Place::First
        | Place::FirstName
        | Place::Floating
        | Place::Colon
        | Place::Second
        | Place::SecondName
        | Place::SecondEnd => assign_rule(place, symbol),
        Place::BlockAt
        | Place::BlockOpen
        | Place::Edge
        | Place::Clock
        | Place::BlockClose
        | Place::BlockBegin => clock_rule(place, symbol),
        _ => next_rule(place, symbol),
    }
}

/// The rules of the module's head.
fn head_rule(place: Place, symbol: Symbol) -> Option<(Place, Act)>
    ensures { result ≡ head_rule place symbol }
{
    match (place, symbol) {
        (Place::Start, Symbol::Module) => Some((Place::ModuleName, Act::Pass)),
        (Place::ModuleName, Symbol::Name) => Some((Place::PortsOpen, Act::NameModule)),
        (Place::PortsOpen, Symbol::OpenParen) => Some((Place::FirstPort, Act::Pass)),
        (Place::FirstPort, Symbol::Name) => Some((Place::PortEnd, Act::ListPort)),
        (Place::FirstPort, Symbol::CloseParen) => Some((Place::HeadEnd, Act::Pass)),
        (Place::PortEnd, Symbol::Comma) => Some((Place::NextPort, Act::Pass)),
        (Place::PortEnd, Symbol::CloseParen) => Some((Place::HeadEnd, Act::Pass)),
        (Place::NextPort, Symbol::Name) => Some((Place::PortEnd, Act::ListPort)),
        (Place::HeadEnd, Symbol::Semicolon) => Some((Place::Declarations, Act::Pass)),
        _ => None,
    }
}

/// The rules of declarations, and of what may stand between and behind assigns.
fn declaration_rule(place: Place, symbol: Symbol) -> Option<(Place, Act)>
    ensures { result ≡ declaration_rule place symbol }
{
    match (place, symbol) {
        (Place::Declarations, Symbol::Input) => Some((
            Place::DeclaredName,
            Act::OfKind(Kind::Input),
        )),
        (Place::Declarations, Symbol::Output) => Some((
            Place::DeclaredName,
            Act::OfKind(Kind::Output),
        )),
        (Place::Declarations, Symbol::Inout) => Some((
            Place::DeclaredName,
            Act::OfKind(Kind::Inout),
        )),
        (Place::Declarations, Symbol::Wire) => Some((Place::DeclaredName, Act::OfKind(Kind::Wire))),
        (Place::Declarations, Symbol::Reg) => Some((Place::DeclaredName, Act::OfKind(Kind::Reg))),
        (Place::DeclaredName, Symbol::Name) => Some((Place::DeclaredEnd, Act::Declare)),
        (Place::DeclaredEnd, Symbol::Comma) => Some((Place::DeclaredName, Act::Pass)),
        (Place::DeclaredEnd, Symbol::Semicolon) => Some((Place::Declarations, Act::Pass)),
        (Place::Declarations, Symbol::Assign) => Some((Place::Target, Act::EndDeclarations)),
        (Place::Declarations, Symbol::Always) => Some((Place::BlockAt, Act::EndDeclarations)),
        (Place::Declarations, Symbol::EndModule) => Some((Place::Done, Act::EndModule)),
        (Place::Assigns, Symbol::Assign) => Some((Place::Target, Act::Pass)),
        (Place::Assigns, Symbol::Always) => Some((Place::BlockAt, Act::Pass)),
        (Place::Assigns, Symbol::EndModule) => Some((Place::Done, Act::EndModule)),
        _ => None,
    }
}

/// The rules behind the first literal, which a wire's, a pad's and an output's assign part at.
fn target_rule(kind: Kind, symbol: Symbol) -> Option<(Place, Act)>
    ensures { result ≡ target_rule kind symbol }
{
    match (kind, symbol) {
        (Kind::Wire, Symbol::And) => Some((Place::Second, Act::Pass)),
        (Kind::Inout, Symbol::Question) => Some((Place::Floating, Act::Pass)),
        (Kind::Output, Symbol::Semicolon) => Some((Place::Assigns, Act::EndAssign)),
        _ => None,
    }
}

/// The rules of an assign.
fn assign_rule(place: Place, symbol: Symbol) -> Option<(Place, Act)>
    ensures { result ≡ assign_rule place symbol }
{
    match (place, symbol) {
        (Place::Target, Symbol::Name) => Some((Place::Equal, Act::BeginAssign)),
        (Place::Equal, Symbol::Equal) => Some((Place::First, Act::Pass)),
        (Place::First, Symbol::Low) => Some((Place::FirstEnd, Act::Constant(false))),
        (Place::First, Symbol::High) => Some((Place::FirstEnd, Act::Constant(true))),
        (Place::First, Symbol::Not) => Some((Place::FirstName, Act::Negate)),
        (Place::First, Symbol::Name) => Some((Place::FirstEnd, Act::Use)),
        (Place::FirstName, Symbol::Name) => Some((Place::FirstEnd, Act::Use)),
        (Place::Floating, Symbol::Floating) => Some((Place::Colon, Act::Pass)),
        (Place::Colon, Symbol::Colon) => Some((Place::Second, Act::Pass)),
        (Place::Second, Symbol::Low) => Some((Place::SecondEnd, Act::Constant(false))),
        (Place::Second, Symbol::High) => Some((Place::SecondEnd, Act::Constant(true))),
        (Place::Second, Symbol::Not) => Some((Place::SecondName, Act::Negate)),
        (Place::Second, Symbol::Name) => Some((Place::SecondEnd, Act::Use)),
        (Place::SecondName, Symbol::Name) => Some((Place::SecondEnd, Act::Use)),
        (Place::SecondEnd, Symbol::Semicolon) => Some((Place::Assigns, Act::EndAssign)),
        _ => None,
    }
}

/// The rules of the head of the registers' block.
fn clock_rule(place: Place, symbol: Symbol) -> Option<(Place, Act)>
    ensures { result ≡ clock_rule place symbol }
{
    match (place, symbol) {
        (Place::BlockAt, Symbol::At) => Some((Place::BlockOpen, Act::Pass)),
        (Place::BlockOpen, Symbol::OpenParen) => Some((Place::Edge, Act::Pass)),
        (Place::Edge, Symbol::Posedge) => Some((Place::Clock, Act::Pass)),
        (Place::Clock, Symbol::Name) => Some((Place::BlockClose, Act::NameClock)),
        (Place::BlockClose, Symbol::CloseParen) => Some((Place::BlockBegin, Act::Pass)),
        (Place::BlockBegin, Symbol::Begin) => Some((Place::Registers, Act::Pass)),
        _ => None,
    }
}

/// The rules of the registers' lines, and of the end.
fn next_rule(place: Place, symbol: Symbol) -> Option<(Place, Act)>
    ensures { result ≡ next_rule place symbol }
{
    match (place, symbol) {
        (Place::Registers, Symbol::Name) => Some((Place::Arrow, Act::BeginNext)),
        (Place::Registers, Symbol::End) => Some((Place::BlockDone, Act::Pass)),
        (Place::Arrow, Symbol::Arrow) => Some((Place::Next, Act::Pass)),
        (Place::Next, Symbol::Low) => Some((Place::NextEnd, Act::Constant(false))),
        (Place::Next, Symbol::High) => Some((Place::NextEnd, Act::Constant(true))),
        (Place::Next, Symbol::Not) => Some((Place::NextName, Act::Negate)),
        (Place::Next, Symbol::Name) => Some((Place::NextEnd, Act::UseNext)),
        (Place::NextName, Symbol::Name) => Some((Place::NextEnd, Act::UseNext)),
        (Place::NextEnd, Symbol::Semicolon) => Some((Place::Registers, Act::EndNext)),
        (Place::BlockDone, Symbol::EndModule) => Some((Place::Done, Act::EndModule)),
        (Place::Done, Symbol::Nothing) => Some((Place::Done, Act::Pass)),
        _ => None,
    }
}
