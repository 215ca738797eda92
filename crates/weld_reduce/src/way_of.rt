//! The way of each rule.
ghost use Rattle.std.specs.Prelude.{◌≡◌};
ghost use Rattle.weld_reduce.specs.Ways as ways;

use crate::way::Way;
use weld_grammar::Rule;
use weld_tree::{ManyForm, ThreeForm, TwoForm};

/// The way in which a rule that binds no names is reduced.
pub fn way_of(rule: Rule) -> Way
    ensures { result ≡ ways.way_of rule }
{
    match rule {
        Rule::OrPart
        | Rule::AndPart
        | Rule::EqualityPart
        | Rule::RelationPart
        | Rule::SumPart
        | Rule::ProductPart => Way::Line,
        Rule::Not | Rule::Len | Rule::Finish | Rule::Cast => Way::Word,
        Rule::LookUp => Way::Two(TwoForm::LookUp),
        Rule::KeyExists => Way::Two(TwoForm::KeyExists),
        Rule::Merge => Way::Two(TwoForm::Merge),
        Rule::If => Way::Three(ThreeForm::If),
        Rule::Select => Way::Three(ThreeForm::Select),
        Rule::Slice => Way::Three(ThreeForm::Slice),
        Rule::MakeVec => Way::Listed(ManyForm::Vec),
        Rule::MakeStruct => Way::Listed(ManyForm::Struct),
        Rule::ListBuild | Rule::KeyedBuild | Rule::GroupsBuild => Way::Fresh,
        Rule::ListType | Rule::TotalType | Rule::KeyedType | Rule::CellsType | Rule::GroupsType =>
            Way::BuilderType,
        Rule::WithoutParams | Rule::Minus | Rule::FieldPart | Rule::Primary => Way::Own,
        Rule::NextExpr | Rule::Leg | Rule::Iter | Rule::TotalBuild => Way::Own,
        Rule::CellsBuild | Rule::AnyType | Rule::VecType | Rule::StructType => Way::Own,
        Rule::NextType | Rule::DictType | Rule::MergeOp => Way::Own,
        _ => Way::Rest,
    }
}
