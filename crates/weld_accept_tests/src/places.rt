use crate::breaks::first_break;
use std::alloc::{AllocError, Global};
use std::test::Fail;
use weld_grammar::Rule;
use weld_grammar::terminals::{Class, Reserved, Symbol, Token, Word};
use weld_tree::Place;

/// The tokens of these classes.
pub(crate) fn tokens_of(alloc: Global, classes: &[Class]) -> Result<Vec<Token>, AllocError> {
    let mut tokens = Vec::new(alloc);
    for class in classes {
        tokens.push(Token {
            class: *class,
            word: Word::copy_of(alloc, b"")?,
            place: Place { line: 1, column: 1 },
        })?;
    }
    Ok(tokens)
}

// The classes of the tokens of a text, which stands above, and the number of the token that breaks it first: the
// operators, calls and loops. The numbers were found by a chart parser over the grammar.
static BROKEN: [(&[Class], usize); 53] = [
    // (no tokens)
    (&[], 0),
    // |
    (&[Class::Symbol(Symbol::Bar)], 1),
    // |x
    (&[Class::Symbol(Symbol::Bar), Class::Name], 2),
    // |x:
    (
        &[
            Class::Symbol(Symbol::Bar),
            Class::Name,
            Class::Symbol(Symbol::Colon),
        ],
        3,
    ),
    // |x: vec
    (
        &[
            Class::Symbol(Symbol::Bar),
            Class::Name,
            Class::Symbol(Symbol::Colon),
            Class::Reserved(Reserved::Vec),
        ],
        4,
    ),
    // |x: vec[
    (
        &[
            Class::Symbol(Symbol::Bar),
            Class::Name,
            Class::Symbol(Symbol::Colon),
            Class::Reserved(Reserved::Vec),
            Class::Symbol(Symbol::LeftBracket),
        ],
        5,
    ),
    // |x: vec[i64
    (
        &[
            Class::Symbol(Symbol::Bar),
            Class::Name,
            Class::Symbol(Symbol::Colon),
            Class::Reserved(Reserved::Vec),
            Class::Symbol(Symbol::LeftBracket),
            Class::Reserved(Reserved::I64),
        ],
        6,
    ),
    // |x: i64,
    (
        &[
            Class::Symbol(Symbol::Bar),
            Class::Name,
            Class::Symbol(Symbol::Colon),
            Class::Reserved(Reserved::I64),
            Class::Symbol(Symbol::Comma),
        ],
        5,
    ),
    // |x: i64|
    (
        &[
            Class::Symbol(Symbol::Bar),
            Class::Name,
            Class::Symbol(Symbol::Colon),
            Class::Reserved(Reserved::I64),
            Class::Symbol(Symbol::Bar),
        ],
        5,
    ),
    // |x: macro| 1
    (
        &[
            Class::Symbol(Symbol::Bar),
            Class::Name,
            Class::Symbol(Symbol::Colon),
            Class::Reserved(Reserved::Macro),
            Class::Symbol(Symbol::Bar),
            Class::Int,
        ],
        3,
    ),
    // || || 1
    (
        &[
            Class::Symbol(Symbol::BarBar),
            Class::Symbol(Symbol::BarBar),
            Class::Int,
        ],
        1,
    ),
    // let 1 = 2; 3
    (
        &[
            Class::Reserved(Reserved::Let),
            Class::Int,
            Class::Symbol(Symbol::Equals),
            Class::Int,
            Class::Symbol(Symbol::Semicolon),
            Class::Int,
        ],
        1,
    ),
    // let x 2
    (
        &[Class::Reserved(Reserved::Let), Class::Name, Class::Int],
        2,
    ),
    // let x = let y = 1; y; x
    (
        &[
            Class::Reserved(Reserved::Let),
            Class::Name,
            Class::Symbol(Symbol::Equals),
            Class::Reserved(Reserved::Let),
            Class::Name,
            Class::Symbol(Symbol::Equals),
            Class::Int,
            Class::Symbol(Symbol::Semicolon),
            Class::Name,
            Class::Symbol(Symbol::Semicolon),
            Class::Name,
        ],
        3,
    ),
    // let x = 1, x
    (
        &[
            Class::Reserved(Reserved::Let),
            Class::Name,
            Class::Symbol(Symbol::Equals),
            Class::Int,
            Class::Symbol(Symbol::Comma),
            Class::Name,
        ],
        4,
    ),
    // let x = 1;
    (
        &[
            Class::Reserved(Reserved::Let),
            Class::Name,
            Class::Symbol(Symbol::Equals),
            Class::Int,
            Class::Symbol(Symbol::Semicolon),
        ],
        5,
    ),
    // 1 +
    (&[Class::Int, Class::Symbol(Symbol::Plus)], 2),
    // 1 == == 2
    (
        &[
            Class::Int,
            Class::Symbol(Symbol::EqualsEquals),
            Class::Symbol(Symbol::EqualsEquals),
            Class::Int,
        ],
        2,
    ),
    // 1 < , 2
    (
        &[
            Class::Int,
            Class::Symbol(Symbol::Less),
            Class::Symbol(Symbol::Comma),
            Class::Int,
        ],
        2,
    ),
    // 1 2
    (&[Class::Int, Class::Int], 1),
    // -1.$0
    (
        &[
            Class::Symbol(Symbol::Minus),
            Class::Int,
            Class::Symbol(Symbol::Dot),
            Class::Field,
        ],
        2,
    ),
    // - - 2 3
    (
        &[
            Class::Symbol(Symbol::Minus),
            Class::Symbol(Symbol::Minus),
            Class::Int,
            Class::Int,
        ],
        3,
    ),
    // !
    (&[Class::Symbol(Symbol::Bang)], 1),
    // x.
    (&[Class::Name, Class::Symbol(Symbol::Dot)], 2),
    // x.1
    (&[Class::Name, Class::Symbol(Symbol::Dot), Class::Int], 2),
    // x.$0.$1 $2
    (
        &[
            Class::Name,
            Class::Symbol(Symbol::Dot),
            Class::Field,
            Class::Symbol(Symbol::Dot),
            Class::Field,
            Class::Field,
        ],
        5,
    ),
    // (1
    (&[Class::Symbol(Symbol::LeftParen), Class::Int], 2),
    // (1,
    (
        &[
            Class::Symbol(Symbol::LeftParen),
            Class::Int,
            Class::Symbol(Symbol::Comma),
        ],
        2,
    ),
    // ()
    (
        &[
            Class::Symbol(Symbol::LeftParen),
            Class::Symbol(Symbol::RightParen),
        ],
        1,
    ),
    // []
    (
        &[
            Class::Symbol(Symbol::LeftBracket),
            Class::Symbol(Symbol::RightBracket),
        ],
        1,
    ),
    // [1
    (&[Class::Symbol(Symbol::LeftBracket), Class::Int], 2),
    // [1,]
    (
        &[
            Class::Symbol(Symbol::LeftBracket),
            Class::Int,
            Class::Symbol(Symbol::Comma),
            Class::Symbol(Symbol::RightBracket),
        ],
        3,
    ),
    // {1}}
    (
        &[
            Class::Symbol(Symbol::LeftBrace),
            Class::Int,
            Class::Symbol(Symbol::RightBrace),
            Class::Symbol(Symbol::RightBrace),
        ],
        3,
    ),
    // {1:
    (
        &[
            Class::Symbol(Symbol::LeftBrace),
            Class::Int,
            Class::Symbol(Symbol::Colon),
        ],
        2,
    ),
    // if 1
    (&[Class::Reserved(Reserved::If), Class::Int], 1),
    // if(1, 2)
    (
        &[
            Class::Reserved(Reserved::If),
            Class::Symbol(Symbol::LeftParen),
            Class::Int,
            Class::Symbol(Symbol::Comma),
            Class::Int,
            Class::Symbol(Symbol::RightParen),
        ],
        5,
    ),
    // select(1, 2, 3, 4)
    (
        &[
            Class::Reserved(Reserved::Select),
            Class::Symbol(Symbol::LeftParen),
            Class::Int,
            Class::Symbol(Symbol::Comma),
            Class::Int,
            Class::Symbol(Symbol::Comma),
            Class::Int,
            Class::Symbol(Symbol::Comma),
            Class::Int,
            Class::Symbol(Symbol::RightParen),
        ],
        7,
    ),
    // lookup(1)
    (
        &[
            Class::Reserved(Reserved::Lookup),
            Class::Symbol(Symbol::LeftParen),
            Class::Int,
            Class::Symbol(Symbol::RightParen),
        ],
        3,
    ),
    // keyexists(1, 2
    (
        &[
            Class::Reserved(Reserved::Keyexists),
            Class::Symbol(Symbol::LeftParen),
            Class::Int,
            Class::Symbol(Symbol::Comma),
            Class::Int,
        ],
        5,
    ),
    // len()
    (
        &[
            Class::Reserved(Reserved::Len),
            Class::Symbol(Symbol::LeftParen),
            Class::Symbol(Symbol::RightParen),
        ],
        2,
    ),
    // slice(1, 2)
    (
        &[
            Class::Reserved(Reserved::Slice),
            Class::Symbol(Symbol::LeftParen),
            Class::Int,
            Class::Symbol(Symbol::Comma),
            Class::Int,
            Class::Symbol(Symbol::RightParen),
        ],
        5,
    ),
    // merge(b, 1
    (
        &[
            Class::Reserved(Reserved::Merge),
            Class::Symbol(Symbol::LeftParen),
            Class::Name,
            Class::Symbol(Symbol::Comma),
            Class::Int,
        ],
        5,
    ),
    // result 1
    (&[Class::Reserved(Reserved::Result), Class::Int], 1),
    // for(v)
    (
        &[
            Class::Reserved(Reserved::For),
            Class::Symbol(Symbol::LeftParen),
            Class::Name,
            Class::Symbol(Symbol::RightParen),
        ],
        3,
    ),
    // for(zip(v), b, |b,i,x| b)
    (
        &[
            Class::Reserved(Reserved::For),
            Class::Symbol(Symbol::LeftParen),
            Class::Reserved(Reserved::Zip),
            Class::Symbol(Symbol::LeftParen),
            Class::Name,
            Class::Symbol(Symbol::RightParen),
            Class::Symbol(Symbol::Comma),
            Class::Name,
            Class::Symbol(Symbol::Comma),
            Class::Symbol(Symbol::Bar),
            Class::Name,
            Class::Symbol(Symbol::Comma),
            Class::Name,
            Class::Symbol(Symbol::Comma),
            Class::Name,
            Class::Symbol(Symbol::Bar),
            Class::Name,
            Class::Symbol(Symbol::RightParen),
        ],
        5,
    ),
    // for(zip(v, w, b, |b,i,x| b)
    (
        &[
            Class::Reserved(Reserved::For),
            Class::Symbol(Symbol::LeftParen),
            Class::Reserved(Reserved::Zip),
            Class::Symbol(Symbol::LeftParen),
            Class::Name,
            Class::Symbol(Symbol::Comma),
            Class::Name,
            Class::Symbol(Symbol::Comma),
            Class::Name,
            Class::Symbol(Symbol::Comma),
            Class::Symbol(Symbol::Bar),
            Class::Name,
            Class::Symbol(Symbol::Comma),
            Class::Name,
            Class::Symbol(Symbol::Comma),
            Class::Name,
            Class::Symbol(Symbol::Bar),
            Class::Name,
            Class::Symbol(Symbol::RightParen),
        ],
        10,
    ),
    // for(iter(v, 1, 2), b, |b,i,x| b)
    (
        &[
            Class::Reserved(Reserved::For),
            Class::Symbol(Symbol::LeftParen),
            Class::Reserved(Reserved::Iter),
            Class::Symbol(Symbol::LeftParen),
            Class::Name,
            Class::Symbol(Symbol::Comma),
            Class::Int,
            Class::Symbol(Symbol::Comma),
            Class::Int,
            Class::Symbol(Symbol::RightParen),
            Class::Symbol(Symbol::Comma),
            Class::Name,
            Class::Symbol(Symbol::Comma),
            Class::Symbol(Symbol::Bar),
            Class::Name,
            Class::Symbol(Symbol::Comma),
            Class::Name,
            Class::Symbol(Symbol::Comma),
            Class::Name,
            Class::Symbol(Symbol::Bar),
            Class::Name,
            Class::Symbol(Symbol::RightParen),
        ],
        9,
    ),
    // for(v, b, |b,i| b)
    (
        &[
            Class::Reserved(Reserved::For),
            Class::Symbol(Symbol::LeftParen),
            Class::Name,
            Class::Symbol(Symbol::Comma),
            Class::Name,
            Class::Symbol(Symbol::Comma),
            Class::Symbol(Symbol::Bar),
            Class::Name,
            Class::Symbol(Symbol::Comma),
            Class::Name,
            Class::Symbol(Symbol::Bar),
            Class::Name,
            Class::Symbol(Symbol::RightParen),
        ],
        10,
    ),
    // for(v, b, |b,i,x,y| b)
    (
        &[
            Class::Reserved(Reserved::For),
            Class::Symbol(Symbol::LeftParen),
            Class::Name,
            Class::Symbol(Symbol::Comma),
            Class::Name,
            Class::Symbol(Symbol::Comma),
            Class::Symbol(Symbol::Bar),
            Class::Name,
            Class::Symbol(Symbol::Comma),
            Class::Name,
            Class::Symbol(Symbol::Comma),
            Class::Name,
            Class::Symbol(Symbol::Comma),
            Class::Name,
            Class::Symbol(Symbol::Bar),
            Class::Name,
            Class::Symbol(Symbol::RightParen),
        ],
        12,
    ),
    // for(v, b, b)
    (
        &[
            Class::Reserved(Reserved::For),
            Class::Symbol(Symbol::LeftParen),
            Class::Name,
            Class::Symbol(Symbol::Comma),
            Class::Name,
            Class::Symbol(Symbol::Comma),
            Class::Name,
            Class::Symbol(Symbol::RightParen),
        ],
        6,
    ),
    // for(v, b, |b:,i,x| b)
    (
        &[
            Class::Reserved(Reserved::For),
            Class::Symbol(Symbol::LeftParen),
            Class::Name,
            Class::Symbol(Symbol::Comma),
            Class::Name,
            Class::Symbol(Symbol::Comma),
            Class::Symbol(Symbol::Bar),
            Class::Name,
            Class::Symbol(Symbol::Colon),
            Class::Symbol(Symbol::Comma),
            Class::Name,
            Class::Symbol(Symbol::Comma),
            Class::Name,
            Class::Symbol(Symbol::Bar),
            Class::Name,
            Class::Symbol(Symbol::RightParen),
        ],
        9,
    ),
    // iterate(s, |x, y| s)
    (
        &[
            Class::Reserved(Reserved::Iterate),
            Class::Symbol(Symbol::LeftParen),
            Class::Name,
            Class::Symbol(Symbol::Comma),
            Class::Symbol(Symbol::Bar),
            Class::Name,
            Class::Symbol(Symbol::Comma),
            Class::Name,
            Class::Symbol(Symbol::Bar),
            Class::Name,
            Class::Symbol(Symbol::RightParen),
        ],
        6,
    ),
    // iterate(s |x| s)
    (
        &[
            Class::Reserved(Reserved::Iterate),
            Class::Symbol(Symbol::LeftParen),
            Class::Name,
            Class::Symbol(Symbol::Bar),
            Class::Name,
            Class::Symbol(Symbol::Bar),
            Class::Name,
            Class::Symbol(Symbol::RightParen),
        ],
        3,
    ),
];

#[test]
fn each_broken_text_breaks_at_its_place(rt: HostRuntime) -> Result<(), Fail> {
    let alloc = rt.alloc();
    for (classes, place) in &BROKEN {
        let tokens = tokens_of(alloc, classes)?;
        assert_eq!(rt; first_break(alloc, Rule::Program, &tokens)?, Some(*place));
    }
    Ok(())
}
