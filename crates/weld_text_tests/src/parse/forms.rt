ghost use Rattle.weld_tokens.specs.Tokens.{AreTokens};

use crate::parse::written::put_expr;
use std::alloc::Global;
use std::test::Fail;
use weld_grammar::terminals::Token;
use weld_parse::read_program;
use weld_reduce::Read;
use weld_tokens::laws::classes_of_tokens;
use weld_tokens::{has_too_many_bytes, read_tokens};
use weld_tree::{Code, Place};

/// Reads a text.
fn read(alloc: Global, text: &[u8]) -> Result<Read, Fail> {
    if has_too_many_bytes(text) || text.len() > 262_144 {
        return Err(Fail::from("the text is too long"));
    }
    match read_tokens(alloc, text) {
        Ok(tokens) => read_of(alloc, text, tokens.as_slice()),
        Err(_) => Err(Fail::from("the text has no tokens")),
    }
}

/// Reads a text of these tokens.
fn read_of(alloc: Global, text: &[u8], tokens: &[Token]) -> Result<Read, Fail>
    requires { AreTokens text.now tokens.now }
{
    let _text = text;
    classes_of_tokens();
    if tokens.len() > 262_144 {
        return Err(Fail::from("the text is too long"));
    }
    match read_program(alloc, tokens) {
        Ok(read) => Ok(read),
        Err(_) => Err(Fail::from("the text is not read")),
    }
}

/// Texts, and the trees that they spell.
static FORMS: [(&str, &str); 40] = [
    ("7", "(int@1)"),
    ("7L", "(int@1)"),
    ("-7", "(negative@1)"),
    ("- -7", "(neg(negative@3)@1)"),
    ("-(7)", "(neg(int@3)@1)"),
    ("!true", "(not(true@2)@1)"),
    ("false", "(false@1)"),
    ("\"a\\n\"", "(chars@1)"),
    ("1+2*3-4", "(-(+(int@1)(*(int@3)(int@5)@4)@2)(int@7)@6)"),
    ("1-2-3", "(-(-(int@1)(int@3)@2)(int@5)@4)"),
    ("1/2%3", "(%(/(int@1)(int@3)@2)(int@5)@4)"),
    ("1<2==true", "(==(<(int@1)(int@3)@2)(true@6)@4)"),
    ("1<=2!=true", "(!=(<=(int@1)(int@4)@2)(true@7)@5)"),
    ("1>2", "(>(int@1)(int@3)@2)"),
    ("1>=2", "(>=(int@1)(int@4)@2)"),
    (
        "true&&false||true",
        "(||(&&(true@1)(false@7)@5)(true@14)@12)",
    ),
    ("(1)", "(int@2)"),
    ("[1,2,3]", "(vec(int@2)(int@4)(int@6)@1)"),
    ("{1,true}", "(struct(int@2)(true@4)@1)"),
    ("{1,2}.$0.$1", "(field(field(struct(int@2)(int@4)@1)@6)@9)"),
    ("if(true,1,2)", "(if(true@4)(int@9)(int@11)@1)"),
    ("select(true,1,2)", "(select(true@8)(int@13)(int@15)@1)"),
    (
        "slice([1],0L,1L)",
        "(slice(vec(int@8)@7)(int@11)(int@14)@1)",
    ),
    ("lookup([1],0L)", "(lookup(vec(int@9)@8)(int@12)@1)"),
    ("keyexists(1,2)", "(keyexists(int@11)(int@13)@1)"),
    ("merge(appender[i32],2)", "(merge(fresh@7)(int@21)@1)"),
    ("len([1])", "(len(vec(int@6)@5)@1)"),
    ("result(merger[i64,+])", "(result(fresh@8)@1)"),
    ("merger[i64,*](2L)", "(started(int@15)@1)"),
    ("vecmerger[i64,min]([1L])", "(started(vec(int@21)@20)@1)"),
    ("dictmerger[i32,i64,max]", "(fresh@1)"),
    ("groupmerger[i32,{i64,i8}]", "(fresh@1)"),
    ("vecbuilder[vec[i8]]", "(fresh@1)"),
    ("i64(1)", "(cast(int@5)@1)"),
    ("u8(1)", "(cast(int@4)@1)"),
    (
        "let a=1;let b=a;a+b",
        "(let0(int@7)(let1(name0@15)(+(name0@17)(name1@19)@18)@9)@1)",
    ),
    (
        "let a=1;let a=a;a",
        "(let0(int@7)(let1(name0@15)(name1@17)@9)@1)",
    ),
    (
        "for([1],appender[i32],|b,i,x|merge(b,x))",
        "(for(vec(int@6)@5)(fresh@9)012(merge(name0@36)(name2@38)@30)@1)",
    ),
    (
        "for(zip([1],iter([2],0L,1L,1L)),appender[i32],|b,i,x:{i32,i32}|merge(b,x.$1))",
        "(for(vec(int@10)@9)iter (vec(int@19)@18)(int@22)(int@25)(int@28)(fresh@33)012(merge(name0@70)(field(name2@72)@73)@64)@1)",
    ),
    (
        "iterate({1,true},|s|{s.$0,false})",
        "(iterate(struct(int@10)(true@12)@9)0(struct(field(name0@22)@23)(false@27)@21)@1)",
    ),
];

/// Each form is read as it is to be.
#[test]
fn forms(rt: HostRuntime) -> Result<(), Fail> {
    for (text, tree) in &FORMS {
        let read = read(rt.alloc(), text.as_bytes())?;
        let mut written = Vec::new(rt.alloc());
        put_expr(&read.body, &mut written)?;
        if written.as_slice() != tree.as_bytes() {
            return Err(Fail::from(*text));
        }
        if read.misnamed.is_some() {
            return Err(Fail::from(*text));
        }
    }
    Ok(())
}

/// Texts with names that are refused: the code and the column of the first.
static MISNAMED: [(&str, Code, u32); 8] = [
    ("a", Code::N1, 1),
    ("let a=a;a", Code::N1, 7),
    ("let len=1;len(b)", Code::N2, 5),
    ("a+(let if=1;2)", Code::N1, 1),
    ("(let if=1;2)+a", Code::N2, 6),
    ("|vec:i64|1", Code::N2, 2),
    ("for([1],appender[i32],|b,max,x|merge(b,y))", Code::N2, 26),
    ("iterate({1,true},|s|{s.$0,false}).$0+s", Code::N1, 38),
];

/// The first name that is refused is found.
#[test]
fn misnamed(rt: HostRuntime) -> Result<(), Fail> {
    for (text, code, column) in &MISNAMED {
        let read = read(rt.alloc(), text.as_bytes())?;
        let place = Place {
            line: 1,
            column: *column,
        };
        if read.misnamed != Some((*code, place)) {
            return Err(Fail::from(*text));
        }
    }
    Ok(())
}

/// Parameters come first in the numbers, and are bound in the body.
#[test]
fn parameters(rt: HostRuntime) -> Result<(), Fail> {
    let read = read(rt.alloc(), b"|x: i64, y: vec[i64]| let z = x; y")?;
    let mut written = Vec::new(rt.alloc());
    put_expr(&read.body, &mut written)?;
    if read.params.len() != 2 {
        return Err(Fail::from("there are two parameters"));
    }
    if written.as_slice() != b"(let2(name0@31)(name1@34)@23)".as_slice() {
        return Err(Fail::from("the body"));
    }
    Ok(())
}
