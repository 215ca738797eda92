ghost use Rattle.weld_tokens.specs.Tokens.{AreTokens};

use std::alloc::Global;
use std::test::Fail;
use weld_acts::is_direct;
use weld_grammar::terminals::Token;
use weld_parse::read_program;
use weld_reduce::Read;
use weld_tokens::laws::classes_of_tokens;
use weld_tokens::{has_too_many_bytes, read_tokens};

/// Reads a text.
fn read(alloc: Global, text: &[u8]) -> Result<Read, Fail> {
    if has_too_many_bytes(text) || text.len() > 262_144 {
        return Err(Fail::from("the text is too long"));
    }
    match read_tokens(alloc, text) {
        Ok(tokens) => read_of(alloc, text, tokens.as_slice()),
        Err(_) => Err(Fail::from("the text has no tokens")),
    }
}

/// Reads a text of these tokens.
fn read_of(alloc: Global, text: &[u8], tokens: &[Token]) -> Result<Read, Fail>
    requires { AreTokens text.now tokens.now }
{
    let _text = text;
    classes_of_tokens();
    if tokens.len() > 262_144 {
        return Err(Fail::from("the text is too long"));
    }
    match read_program(alloc, tokens) {
        Ok(read) => Ok(read),
        Err(_) => Err(Fail::from("the text is not read")),
    }
}

/// Whether each loop of a text acts on its own builder is answered so.
fn all_are(rt: &HostRuntime, texts: &[&str], wanted: bool) -> Result<(), Fail> {
    for text in texts {
        let read = read(rt.alloc(), text.as_bytes())?;
        if is_direct(&read.body) != wanted {
            return Err(Fail::from(*text));
        }
    }
    Ok(())
}

/// Bodies that merge, choose, bind, go on in the same builder, or do so field by field.
static DIRECT: [&str; 12] = [
    "1+2",
    "result(for([1L],merger[i64,+],|b,i,x|merge(b,x*x)))",
    "result(for([1L],appender[i64],|b,i,x|if(x>3L,merge(b,x),b)))",
    "result(for([1L],dictmerger[i64,i64,+],|b,i,x|let k=x%10L;merge(b,{k,1L})))",
    "result(for([1L],merger[i64,+],|b,i,x|merge(merge(b,x),i)))",
    "result(for([[1L]],merger[i64,+],|b,i,row|for(row,b,|c,j,x|merge(c,x))))",
    "for([1L],{appender[i64],merger[i64,+]},|b,i,x|{merge(b.$0,x),merge(b.$1,x)})",
    "for([1L],{appender[i64],merger[i64,+]},|b,i,x|if(x>3L,{b.$0,merge(b.$1,x)},b))",
    "for([1L],{{appender[i64]},merger[i64,+]},|b,i,x|{{merge(b.$0.$0,x)},b.$1})",
    "result(for([[1L]],appender[i64],|b,i,row|merge(b,result(for(row,merger[i64,+],|c,j,x|merge(c,x))))))",
    "let v=[1L];result(for(iter(v,0L,1L,1L),appender[i64],|b,i,x|let y=x;if(y>i,merge(b,y),b)))",
    "iterate({1L,true},|s|{result(for([s.$0],merger[i64,+],|b,i,x|merge(b,x))),false}).$0",
];

/// Bodies that give the builder another name, or put its fields into other places.
static NOT_DIRECT: [&str; 5] = [
    "result(for([1L],merger[i64,+],|b,i,x|let c=merge(b,x);merge(c,x)))",
    "for([1L],{merger[i64,+],merger[i64,+]},|b,i,x|{b.$1,b.$0})",
    "result(for([1L],merger[i64,+],|b,i,x|let c=b;c))",
    "result(for([[1L]],merger[i64,+],|b,i,row|let c=for(row,b,|c,j,x|merge(c,x));c))",
    "1L+result(for([1L],merger[i64,+],|b,i,x|let c=b;c))",
];

#[test]
fn bodies_that_merge_into_their_builder_are_direct(rt: HostRuntime) -> Result<(), Fail> {
    all_are(&rt, &DIRECT, true)
}

#[test]
fn bodies_that_rename_their_builder_are_not(rt: HostRuntime) -> Result<(), Fail> {
    all_are(&rt, &NOT_DIRECT, false)
}
