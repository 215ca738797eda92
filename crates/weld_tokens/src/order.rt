ghost use Rattle.std.specs.Prelude.{◌≡◌, false, length};
ghost use Rattle.weld_tokens.specs.Order as order;
ghost use Rattle.weld_tokens.specs.TokenLimits as limits;

use crate::limits::{first_long_name, has_too_many_tokens};
use crate::literals::literal_of;
use weld_grammar::terminals::{Class, Reserved, Symbol, Token};
use weld_tree::{Code, Place, Refusal};

/// What the grammar finds in a list of tokens. Where a field is beyond a refusal that comes before it, it doesn't count.
#[derive(Clone, Copy, Debug)]
pub struct Findings {
    /// The place of the first token at which no program can go on, or of the end where more must come (X2).
    pub ungrammatical: Option<Place>,
    /// The place of the first number that its kind doesn't have (X3).
    pub out_of_range: Option<Place>,
    /// The place of the first node that stands too deep (M4).
    pub too_deep: Option<Place>,
    /// Whether there are too many `let` nodes (M5).
    pub too_many_lets: bool,
    /// The place of the first token of the first written type that is too large or too deep (M6).
    pub too_large_type: Option<Place>,
    /// The place of the first parameter too many (M7).
    pub too_many_parameters: Option<Place>,
    /// The place of the first token of the first field or leg too many (M8).
    pub too_many_fields: Option<Place>,
    /// N1 at the first name that no binder in scope bears, or N2 at the first reserved word in the place of a name.
    pub misnamed: Option<(Code, Place)>,
}

/// Whether the token is a number that its kind doesn't have.
fn out_of_range(token: &Token, negative: bool) -> bool
    ensures { result ≡ order.out_of_range token.now.class negative token.now.word }
{
    match token.class {
        Class::Int => literal_of(token.word.as_slice(), Class::Int, negative).is_none(),
        Class::Long => literal_of(token.word.as_slice(), Class::Long, negative).is_none(),
        _ => false,
    }
}

/// The place of the first number out of its range, where there is one (X3). Beside each token stands
/// whether it is the number of a negative literal.
pub fn first_out_of_range(negative: &[bool], tokens: &[Token]) -> Option<Place>
    requires { length negative.now ≡ length tokens.now }
    ensures { result ≡ order.first_out_of_range negative.now tokens.now }
{
    for (i, token) in tokens.iter().enumerate() {
        if out_of_range(token, negative[i]) {
            return Some(token.place);
        }
    }
    None
}

/// Whether an operand ends with the token.
fn ends_operand(class: Class) -> bool
    ensures { result ≡ order.ends_operand class }
{
    match class {
        Class::Name | Class::Int | Class::Long | Class::Field | Class::Chars => true,
        Class::Reserved(Reserved::True) | Class::Reserved(Reserved::False) => true,
        Class::Symbol(Symbol::RightParen) => true,
        Class::Symbol(Symbol::RightBracket) => true,
        Class::Symbol(Symbol::RightBrace) => true,
        _ => false,
    }
}

/// Whether the token is `-`.
fn is_minus(class: Class) -> bool
    ensures { result ≡ order.is_minus class }
{
    match class {
        Class::Symbol(Symbol::Minus) => true,
        _ => false,
    }
}

/// The place of the first number out of its range in the tokens of a program, where there is one (X3). A number is that of a negative literal where a `-` stands right before it and no operand before that.
pub fn first_number_out_of_range(tokens: &[Token]) -> Option<Place>
    ensures { result ≡ order.first_number_out_of_range tokens.now }
{
    let mut operand = false;
    let mut behind = false;
    for token in tokens {
        if out_of_range(token, behind) {
            return Some(token.place);
        }
        behind = is_minus(token.class) && !operand;
        operand = ends_operand(token.class);
    }
    None
}

/// A refusal by a code at a place.
fn at(code: Code, place: Option<Place>) -> Option<Refusal>
    ensures { result ≡ order.at code place }
{
    match place {
        Some(place) => Some(Refusal::At(code, place)),
        None => None,
    }
}

/// A refusal of the whole by a code.
fn whole(code: Code, refused: bool) -> Option<Refusal>
    ensures { result ≡ order.whole code refused }
{
    if refused {
        Some(Refusal::Size(code))
    } else {
        None
    }
}

/// A refusal of a name.
fn named(found: Option<(Code, Place)>) -> Option<Refusal>
    ensures { result ≡ order.named found }
{
    match found {
        Some((code, place)) => Some(Refusal::At(code, place)),
        None => None,
    }
}

/// The first of two refusals.
fn or_else(first: Option<Refusal>, other: Option<Refusal>) -> Option<Refusal>
    ensures { result ≡ order.or_else first other }
{
    match first {
        Some(refusal) => Some(refusal),
        None => other,
    }
}

/// The first refusal of a text behind X1, by its tokens and what their grammar finds: M3, X2, X3, M4 to
/// M9, and then the names.
pub fn first_refusal(tokens: &[Token], found: &Findings) -> Option<Refusal>
    ensures { result ≡ order.first_refusal tokens.now found.now }
{
    if has_too_many_tokens(tokens) {
        return Some(Refusal::Size(Code::M3));
    }
    first_refusal_within(tokens, found)
}

/// The same of a text of which it is known that M3 doesn't refuse it.
pub fn first_refusal_within(tokens: &[Token], found: &Findings) -> Option<Refusal>
    requires { limits.has_too_many_tokens tokens.now ≡ false }
    ensures { result ≡ order.first_refusal tokens.now found.now }
{
    let names = or_else(at(Code::M9, first_long_name(tokens)), named(found.misnamed));
    let fields = or_else(at(Code::M8, found.too_many_fields), names);
    let parameters = or_else(at(Code::M7, found.too_many_parameters), fields);
    let types = or_else(at(Code::M6, found.too_large_type), parameters);
    let lets = or_else(whole(Code::M5, found.too_many_lets), types);
    let nodes = or_else(at(Code::M4, found.too_deep), lets);
    let numbers = or_else(at(Code::X3, found.out_of_range), nodes);
    or_else(at(Code::X2, found.ungrammatical), numbers)
}
