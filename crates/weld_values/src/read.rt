//! Values of any type, read by the data grammar.

ghost use Rattle.std.specs.Prelude.{◌≡◌, ◌<◌, ◌++◌, [], ◌∷◌, List, length, Some, None, OnOk, IfOk, IfErr, IfSome, IfNone};
ghost use Rattle.weld_data.specs.View.{view_val, view_column};
ghost use Rattle.weld_tree.specs.TypeTree.{TypeTree, pack, vec};
ghost use Rattle.weld_values.specs.Grammar.{scalar_at, Found, At, AtString, AtStruct, AtDict, AtEntry, Fields};
ghost use Rattle.weld_tree.specs.HasValue.{HasValue};
ghost use Rattle.weld_values.specs.Reading.{ReadsAs, WhyNot};
ghost use Rattle.weld_values.specs.Judging.{IsRead, IsUnread, IsReadInto, AreListed, AreUnlisted, AreRead, AreUnread, IsReadable, AreReadable, AreJudged, Judged, IsEntryRead, EntriesRead, EntriesUnread};
ghost use Rattle.weld_data.specs.Value.{Value, dict as dict_value, entries as entries_of};
ghost use Rattle.weld_data.specs.Order.{IsKey as IsKeyValue};
ghost use Rattle.weld_tree.specs.Types.{IsKey};
ghost use Rattle.weld_sorted.specs.Repeats.{HaveOneKeyType};
ghost use Rattle.weld_values.specs.declared.flaw.Flaw.TheVariants as flaws;

use crate::cell::Cell;
use crate::column::read_cells;
use crate::fault::DataFault;
use crate::flaw::Flaw;
use crate::string::read_items;
use crate::tokens::{after_blanks, after_word, byte_at};
use std::alloc::{AllocError, Global};
use weld_data::laws::one_wrapped_number;
use weld_data::{Column, I8s, Kind, Num, Pairs, Val, Vals};
use weld_sorted::{Entry, sort_entries};
use weld_tree::{Ty, TyForm, Tys};
use weld_write_value::is_i8;

/// The scalar of the kind at the front of the text, and what follows it.
fn read_scalar(text: &[u8], kind: Kind) -> Option<(Val, Flaw, &[u8])>
    ensures found { IfSome result (λ f. IsRead (Found (scalar_at kind)) text.now f.1 (view_val f.0)
        f.2.now) }
    ensures none { IfNone result (scalar_at kind text.now ≡ None) }
    ensures less { IfSome result (λ f. length f.2.now < length text.now) }
{
    match kind {
        Kind::Bool => match bool::read(text) {
            Some((value, flaw, rest)) => Some((Val::Num(Num::of_bool(value)), flaw, rest)),
            None => None,
        },
        Kind::I8 => match i8::read(text) {
            Some((value, flaw, rest)) => Some((Val::Num(Num::of_i8(value)), flaw, rest)),
            None => None,
        },
        Kind::I16 => match i16::read(text) {
            Some((value, flaw, rest)) => Some((Val::Num(Num::of_i16(value)), flaw, rest)),
            None => None,
        },
        Kind::I32 => match i32::read(text) {
            Some((value, flaw, rest)) => Some((Val::Num(Num::of_i32(value)), flaw, rest)),
            None => None,
        },
        Kind::I64 => match i64::read(text) {
            Some((value, flaw, rest)) => Some((Val::Num(Num::of_i64(value)), flaw, rest)),
            None => None,
        },
        Kind::U8 => match u8::read(text) {
            Some((value, flaw, rest)) => Some((Val::Num(Num::of_u8(value)), flaw, rest)),
            None => None,
        },
        Kind::U16 => match u16::read(text) {
            Some((value, flaw, rest)) => Some((Val::Num(Num::of_u16(value)), flaw, rest)),
            None => None,
        },
        Kind::U32 => match u32::read(text) {
            Some((value, flaw, rest)) => Some((Val::Num(Num::of_u32(value)), flaw, rest)),
            None => None,
        },
        Kind::U64 => match u64::read(text) {
            Some((value, flaw, rest)) => Some((Val::Num(Num::of_u64(value)), flaw, rest)),
            None => None,
        },
    }
}

/// What stands after an opening bracket, as scalars of the kind, and what follows the closing one.
fn read_column<'a>(
    alloc: Global,
    text: &'a [u8],
    kind: Kind,
) -> Result<Option<(Column, Flaw, &'a [u8])>, AllocError>
    ensures found { IfOk result (λ found. IfSome found (λ f. AreRead (Found (scalar_at kind))
        text.now f.1 (view_column f.0) f.2.now)) }
    ensures none { IfOk result (λ found. IfNone found (AreUnread (Found (scalar_at kind))
        text.now)) }
{
    match kind {
        Kind::Bool => Ok(match read_cells::<bool>(alloc, text)? {
            Some((items, flaw, rest)) => Some((Column::Bool(items), flaw, rest)),
            None => None,
        }),
        Kind::I8 => Ok(match read_cells::<i8>(alloc, text)? {
            Some((items, flaw, rest)) => Some((
                Column::I8(I8s::from_vec(items.into_vec())),
                flaw,
                rest,
            )),
            None => None,
        }),
        Kind::I16 => Ok(match read_cells::<i16>(alloc, text)? {
            Some((items, flaw, rest)) => Some((Column::I16(items), flaw, rest)),
            None => None,
        }),
        Kind::I32 => Ok(match read_cells::<i32>(alloc, text)? {
            Some((items, flaw, rest)) => Some((Column::I32(items), flaw, rest)),
            None => None,
        }),
        Kind::I64 => Ok(match read_cells::<i64>(alloc, text)? {
            Some((items, flaw, rest)) => Some((Column::I64(items), flaw, rest)),
            None => None,
        }),
        Kind::U8 => Ok(match read_cells::<u8>(alloc, text)? {
            Some((items, flaw, rest)) => Some((Column::U8(items), flaw, rest)),
            None => None,
        }),
        Kind::U16 => Ok(match read_cells::<u16>(alloc, text)? {
            Some((items, flaw, rest)) => Some((Column::U16(items), flaw, rest)),
            None => None,
        }),
        Kind::U32 => Ok(match read_cells::<u32>(alloc, text)? {
            Some((items, flaw, rest)) => Some((Column::U32(items), flaw, rest)),
            None => None,
        }),
        Kind::U64 => Ok(match read_cells::<u64>(alloc, text)? {
            Some((items, flaw, rest)) => Some((Column::U64(items), flaw, rest)),
            None => None,
        }),
    }
}

/// A string at the front of the text, as a list of numbers of kind i8, and what follows it.
fn read_string<'a>(
    alloc: Global,
    text: &'a [u8],
) -> Result<Option<(Val, Flaw, &'a [u8])>, AllocError>
    ensures found { IfOk result (λ found. IfSome found (λ f. IsRead AtString text.now f.1
        (view_val f.0) f.2.now)) }
    ensures none { IfOk result (λ found. IfNone found (IsUnread AtString text.now)) }
{
    let Some(inner) = byte_at(text, b'"') else {
        return Ok(None);
    };
    one_wrapped_number(Kind::I8);
    let Some((items, rest)) = read_items(alloc, inner)? else {
        return Ok(None);
    };
    Ok(Some((Val::List(Column::I8(items)), Flaw::Fine, rest)))
}

/// A value of the type at the front of the text, and what follows it.
#[cycle(read)]
pub(crate) fn read_at<'a>(
    ty: &Ty,
    alloc: Global,
    text: &'a [u8],
) -> Result<Option<(Val, Flaw, &'a [u8])>, AllocError>
    requires { IsReadable ty.now }
    ensures found { IfOk result (λ found. IfSome found (λ f. IsRead (At ty.now) text.now f.1
        (view_val f.0) f.2.now)) }
    ensures none { IfOk result (λ found. IfNone found (IsUnread (At ty.now) text.now)) }
{
    match &ty.form {
        TyForm::Scalar(kind) => Ok(read_scalar(text, *kind)),
        TyForm::Vec(item) => read_vec(item, alloc, text),
        TyForm::Struct(fields) => read_struct(fields, alloc, text),
        TyForm::Dict(key, value) => read_dict(key, value, alloc, text),
        TyForm::Build(_) => unreachable!(),
    }
}

/// A vector at the front of the text, and what follows it.
#[cycle(read)]
fn read_vec<'a>(
    item: &Ty,
    alloc: Global,
    text: &'a [u8],
) -> Result<Option<(Val, Flaw, &'a [u8])>, AllocError>
    requires { IsReadable item.now }
    ensures found { IfOk result (λ found. IfSome found (λ f. IsRead (At (vec item.now)) text.now f.1
        (view_val f.0) f.2.now)) }
    ensures none { IfOk result (λ found. IfNone found (IsUnread (At (vec item.now)) text.now)) }
{
    let Some(inner) = byte_at(text, b'[') else {
        return if is_i8(item) {
            read_string(alloc, text)
        } else {
            Ok(None)
        };
    };
    match read_inside(item, alloc, inner)? {
        Some((column, flaw, rest)) => Ok(Some((Val::List(column), flaw, rest))),
        None => Ok(None),
    }
}

/// What stands after an opening bracket: values of the type with commas between them or none, the closing bracket, and
/// what follows it.
#[cycle(read)]
fn read_inside<'a>(
    item: &Ty,
    alloc: Global,
    text: &'a [u8],
) -> Result<Option<(Column, Flaw, &'a [u8])>, AllocError>
    requires { IsReadable item.now }
    ensures found { IfOk result (λ found. IfSome found (λ f. AreRead (At item.now) text.now f.1
        (view_column f.0) f.2.now)) }
    ensures none { IfOk result (λ found. IfNone found (AreUnread (At item.now) text.now)) }
{
    match &item.form {
        TyForm::Scalar(kind) => read_column(alloc, text, *kind),
        _ => match read_nested(item, alloc, text)? {
            Some((items, flaw, rest)) => Ok(Some((Column::Nest(items), flaw, rest))),
            None => Ok(None),
        },
    }
}

/// The same as a list of values.
#[cycle(read)]
fn read_nested<'a>(
    item: &Ty,
    alloc: Global,
    text: &'a [u8],
) -> Result<Option<(Vals, Flaw, &'a [u8])>, AllocError>
    requires { IsReadable item.now }
    ensures found { IfOk result (λ found. IfSome found (λ f. AreRead (At item.now) text.now f.1 f.0
        f.2.now)) }
    ensures none { IfOk result (λ found. IfNone found (AreUnread (At item.now) text.now)) }
{
    if let Some(rest) = byte_at(text, b']') {
        return Ok(Some((Vals::new(alloc), Flaw::Fine, rest)));
    }
    read_some(item, alloc, text)
}

/// One value of the type or more with commas between them, the closing bracket, and what follows it.
#[cycle(read)]
fn read_some<'a>(
    item: &Ty,
    alloc: Global,
    text: &'a [u8],
) -> Result<Option<(Vals, Flaw, &'a [u8])>, AllocError>
    requires { IsReadable item.now }
    ensures found { IfOk result (λ found. IfSome found (λ f. AreListed (At item.now) text.now f.1
        f.0 f.2.now)) }
    ensures none { IfOk result (λ found. IfNone found (AreUnlisted (At item.now) text.now)) }
{
    let mut items = Vals::new(alloc);
    let mut flaw = Flaw::Fine;
    let mut rest = text;
    'items: loop {
        let Some((here, after)) = read_into(item, &mut items, alloc, rest)? else {
            return Ok(None);
        };
        flaw = flaw.and(here);
        let Some(more) = byte_at(after, b',') else {
            let Some(end) = byte_at(after, b']') else {
                return Ok(None);
            };
            return Ok(Some((items, flaw, end)));
        };
        rest = more;
    }
}

/// Appends the value of the type at the front of the text, and answers what follows it.
#[cycle(read)]
pub(crate) fn read_into<'a>(
    ty: &Ty,
    items: &mut Vals,
    alloc: Global,
    text: &'a [u8],
) -> Result<Option<(Flaw, &'a [u8])>, AllocError>
    requires { IsReadable ty.now }
    ensures found { IfOk result (λ found. IfSome found (λ f. IsReadInto (At ty.now) text.now f.0
        items.old items.new f.1.now)) }
    ensures none { IfOk result (λ found. IfNone found (IsUnread (At ty.now) text.now)) }
{
    match read_at(ty, alloc, text)? {
        Some((value, flaw, rest)) => {
            items.push(value)?;
            Ok(Some((flaw, rest)))
        }
        None => Ok(None),
    }
}

/// A struct at the front of the text, and what follows it.
#[cycle(read)]
fn read_struct<'a>(
    fields: &Tys,
    alloc: Global,
    text: &'a [u8],
) -> Result<Option<(Val, Flaw, &'a [u8])>, AllocError>
    requires { AreReadable (pack fields.now) }
    ensures found { IfOk result (λ found. IfSome found (λ f. IsRead
        (AtStruct (Fields (pack fields.now) 123)) text.now f.1 (view_val f.0) f.2.now)) }
    ensures none { IfOk result (λ found. IfNone found (IsUnread
        (AtStruct (Fields (pack fields.now) 123)) text.now)) }
{
    let mut values = Vals::from_vec(Vec::with_capacity(alloc, fields.as_slice().len())?);
    let mut flaw = Flaw::Fine;
    let mut rest = text;
    let mut lead = b'{';
    'fields: for ty in fields.as_slice() {
        let Some(start) = byte_at(rest, lead) else {
            return Ok(None);
        };
        let Some((here, after)) = read_into(ty, &mut values, alloc, start)? else {
            return Ok(None);
        };
        flaw = flaw.and(here);
        rest = after;
        lead = b',';
    }
    let Some(end) = byte_at(rest, b'}') else {
        return Ok(None);
    };
    Ok(Some((Val::Struct(values), flaw, end)))
}

/// Appends an entry where nothing is wrong with what was read so far, and else drops it.
fn push_entry(entries: &mut Vec<Entry>, flaw: Flaw, key: Val, value: Val) -> Result<(), AllocError>
    requires { flaw ≡ flaws.Fine → IsKeyValue (view_val key) }
    ensures { OnOk result (flaw ≡ flaws.Fine → entries.new.items
        ≡ entries.old.items ++ (view_val key, view_val value) ∷ []) }
{
    if let Flaw::Fine = flaw {
        entries.push(Entry::new(key, value))?;
    }
    Ok(())
}

/// Appends the entry at the front of the text, and answers what is wrong so far and what follows it.
#[cycle(read)]
fn read_entry<'a>(
    key: &Ty,
    value: &Ty,
    entries: &mut Vec<Entry>,
    before: Flaw,
    alloc: Global,
    text: &'a [u8],
) -> Result<Option<(Flaw, &'a [u8])>, AllocError>
    requires key { IsKey key.now }
    requires value { IsReadable value.now }
    ensures found { IfOk result (λ found. IfSome found (λ f. IsEntryRead key.now
        (AtEntry (At key.now) (At value.now)) text.now before f.0 entries.old.items
        entries.new.items f.1.now)) }
    ensures none { IfOk result (λ found. IfNone found (IsUnread
        (AtEntry (At key.now) (At value.now)) text.now)) }
{
    let Some((first, key_flaw, mid)) = read_at(key, alloc, text)? else {
        return Ok(None);
    };
    let Some(start) = byte_at(mid, b':') else {
        return Ok(None);
    };
    let Some((second, value_flaw, rest)) = read_at(value, alloc, start)? else {
        return Ok(None);
    };
    let with_key = before.and(key_flaw);
    let flaw = with_key.and(value_flaw);
    push_entry(entries, flaw, first, second)?;
    Ok(Some((flaw, rest)))
}

/// What stands after an opening brace: entries with commas between them or none, the closing brace, and what follows it.
#[cycle(read)]
fn read_entries<'a>(
    key: &Ty,
    value: &Ty,
    alloc: Global,
    text: &'a [u8],
) -> Result<Option<(Vec<Entry>, Flaw, &'a [u8])>, AllocError>
    requires key { IsKey key.now }
    requires value { IsReadable value.now }
    ensures found { IfOk result (λ found. IfSome found (λ f. EntriesRead key.now
        (AtEntry (At key.now) (At value.now)) text.now f.1 f.0.items f.2.now)) }
    ensures none { IfOk result (λ found. IfNone found (EntriesUnread
        (AtEntry (At key.now) (At value.now)) text.now)) }
{
    let mut entries = Vec::new(alloc);
    if let Some(rest) = byte_at(text, b'}') {
        return Ok(Some((entries, Flaw::Fine, rest)));
    }
    let mut flaw = Flaw::Fine;
    let mut rest = text;
    'entries: loop {
        let Some((so_far, after)) = read_entry(key, value, &mut entries, flaw, alloc, rest)? else {
            return Ok(None);
        };
        flaw = so_far;
        let Some(more) = byte_at(after, b',') else {
            let Some(end) = byte_at(after, b'}') else {
                return Ok(None);
            };
            return Ok(Some((entries, flaw, end)));
        };
        rest = more;
    }
}

/// The entries by rising keys, and what is wrong with them; where something is, any dictionary.
fn settled(alloc: Global, entries: Vec<Entry>, flaw: Flaw) -> Result<(Pairs, Flaw), AllocError>
    requires { flaw ≡ flaws.Fine → HaveOneKeyType entries.items }
    ensures { IfOk result (λ s. (t : TypeTree) (raws : List (Value × Value))
        → AreJudged t flaw raws entries.items
        → Judged s.1 (dict_value (entries_of raws)) (dict_value (entries_of s.0))) }
{
    match flaw {
        Flaw::Fine => match sort_entries(alloc, entries)? {
            Some(pairs) => Ok((pairs, Flaw::Fine)),
            None => Ok((Pairs::new(alloc), Flaw::Repeat)),
        },
        _ => Ok((Pairs::new(alloc), flaw)),
    }
}

/// A dictionary at the front of the text, and what follows it.
#[cycle(read)]
fn read_dict<'a>(
    key: &Ty,
    value: &Ty,
    alloc: Global,
    text: &'a [u8],
) -> Result<Option<(Val, Flaw, &'a [u8])>, AllocError>
    requires key { IsKey key.now }
    requires value { IsReadable value.now }
    ensures found { IfOk result (λ found. IfSome found (λ f. IsRead
        (AtDict (At key.now) (At value.now)) text.now f.1 (view_val f.0) f.2.now)) }
    ensures none { IfOk result (λ found. IfNone found (IsUnread (AtDict (At key.now) (At value.now))
        text.now)) }
{
    let Some(brace) = after_word(after_blanks(text), b"dict") else {
        return Ok(None);
    };
    let Some(inner) = byte_at(brace, b'{') else {
        return Ok(None);
    };
    match read_entries(key, value, alloc, inner)? {
        Some((read, flaw, rest)) => {
            let (pairs, flaw) = settled(alloc, read, flaw)?;
            Ok(Some((Val::Dict(pairs), flaw, rest)))
        }
        None => Ok(None),
    }
}

/// The content of a data block as a value of the type, or why it is none. The type is one without builders whose
/// dictionaries have keys that may be such. `Memory` says that memory was wanting, and nothing of the content.
pub fn read_value(alloc: Global, content: &[u8], ty: &Ty) -> Result<Val, DataFault>
    requires { IsReadable ty.now }
    ensures value { IfOk result (λ v. ReadsAs content.now ty.now (view_val v)) }
    ensures typed { IfOk result (λ v. HasValue ty.now (view_val v)) }
    ensures fault { IfErr result (WhyNot content.now ty.now) }
{
    match read_at(ty, alloc, content) {
        Ok(Some((value, flaw, rest))) => {
            if !after_blanks(rest).is_empty() {
                return Err(DataFault::Syntax);
            }
            match flaw {
                Flaw::Fine => Ok(value),
                Flaw::Repeat => Err(DataFault::Repeat),
                Flaw::Range => Err(DataFault::Range),
            }
        }
        Ok(None) => Err(DataFault::Syntax),
        Err(_) => Err(DataFault::Memory),
    }
}
