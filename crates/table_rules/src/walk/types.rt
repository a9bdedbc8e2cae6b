//! The entries of declared names and of types.

ghost use Rattle.std.specs.Prelude.{◌≡◌, ◌+◌, ◌<◌, ◌^◌};
ghost use Rattle.ob_tree.specs.Widths.{base_width, identdef_width, name_width};
ghost use Rattle.module_table.specs.TableStages.{added, after, PerformsStep};
ghost use Rattle.table_rules.specs.Statements.{qualident_rows};
ghost use Rattle.table_rules.specs.Types.{base_of, identdef_rows, parameter_rows, in_record, name_part, part_row, record_row, type_name_rows};
ghost use Rattle.module_table.specs.Parts.{both, if_present, token};

use crate::walk::uses::{append_qualident, member_at};
use module_table::builder::{Context, TableBuilder};
use module_table::{Declared, Part, Record as RecordRow, TypeName, TypePart, Used};
use ob_tree::name::{Identdef, Qualident};

/// Appends a declared identifier, with whether it has the export mark `*`.
#[tactic(auto, using(crate::proofs::TypeLayers::names_made))]
pub fn append_identdef(builder: &mut TableBuilder, context: Context, name: Identdef)
    requires { builder.old.number + identdef_width name < 2 ^ 32 }
    // Exactly the entry of the identifier is appended, unless an allocation fails.
    ensures stage { PerformsStep (after (identdef_rows name) context) builder.old builder.new }
    // The identifier is consumed, with its export mark, if it has one.
    ensures number { builder.new.number ≡ builder.old.number + identdef_width name }
{
    let number = builder.number;
    builder.add_declared(Declared {
        number,
        exported: name.is_exported,
        declared_by: context.decl_group,
    });
    builder.advance();
    if name.is_exported {
        builder.advance();
    }
}

/// Appends the name of a parameter, which is never exported.
#[inline(always)]
#[tactic(auto, using(crate::proofs::TypeLayers::names_made))]
pub fn append_parameter(builder: &mut TableBuilder, context: Context)
    requires { builder.old.number + 1 < 2 ^ 32 }
    // Exactly the entry of the parameter is appended, unless an allocation fails.
    ensures stage { PerformsStep (after parameter_rows context) builder.old builder.new }
    // One token is consumed.
    ensures number { builder.new.number ≡ builder.old.number + 1 }
{
    let number = builder.number;
    builder.add_declared(Declared {
        number,
        exported: false,
        declared_by: context.decl_group,
    });
    builder.advance()
}

/// Appends a component of a type expression that begins with the next token. The builder is not advanced.
#[tactic(auto, using(crate::proofs::TypeLayers::names_made))]
pub fn add_type_component(builder: &mut TableBuilder, context: Context, part: Part)
    // Exactly the entry of the component is appended, unless an allocation fails.
    ensures stage { PerformsStep (λ s. added (part_row part context s.number) s) builder.old builder.new }
    // The builder is not advanced.
    ensures number { builder.new.number ≡ builder.old.number }
{
    let number = builder.number;
    builder.add_part(TypePart {
        declared_by: context.decl_group,
        number,
        part,
    })
}

/// Appends the name that ends a type expression, as a component that begins with the next token. The builder is not advanced.
#[tactic(auto, using(crate::proofs::TypeLayers::names_made))]
pub fn add_type_name(builder: &mut TableBuilder, context: Context, name: Qualident)
    requires { builder.old.number + name_width name.member < 2 ^ 32 }
    // Exactly the entry of the name is appended, unless an allocation fails.
    ensures stage { PerformsStep (λ s. added (name_part name context s.number) s) builder.old builder.new }
    // The builder is not advanced.
    ensures number { builder.new.number ≡ builder.old.number }
{
    let number = builder.number;
    let member = member_at(name.member, number);
    builder.add_part(TypePart {
        declared_by: context.decl_group,
        number,
        part: Part::Named(member),
    })
}

/// Appends a name as a type. An unqualified name directly after POINTER TO may be declared later: it is the target of a pointer.
#[inline(always)]
#[tactic(auto, using(crate::proofs::TypeLayers::names_made))]
pub fn append_type_name(builder: &mut TableBuilder, context: Context, name: Qualident)
    requires { builder.old.number + name_width name.member < 2 ^ 32 }
    // Exactly the entries of the name are appended, unless an allocation fails.
    ensures stage { PerformsStep (after (type_name_rows name) context) builder.old builder.new }
    // The tokens of the name are consumed.
    ensures number { builder.new.number ≡ builder.old.number + name_width name.member }
{
    add_type_name(builder, context, name);
    let is_target = match name.member {
        None => context.is_target,
        Some(_) => false,
    };
    let number = builder.number;
    let member = member_at(name.member, number);
    builder.add_used(Used {
        number,
        block: context.block,
        is_target,
        member,
    });
    builder.advance();
    match name.member {
        None => {}
        Some(_) => {
            builder.advance();
            builder.advance();
        }
    }
}

/// The context of a type expression, with whether POINTER TO directly precedes it.
pub fn type_context(context: Context, is_target: bool) -> Context
    ensures { result ≡ record { block = context.block; decl_group = context.decl_group; of_record = context.of_record; is_target = is_target } }
{
    Context {
        is_target,
        ..context
    }
}

/// The name of the base of the record whose RECORD keyword has this token number.
#[inline(always)]
#[tactic(auto, using(module_table::proofs::Steps::steps))]
fn base_name(base: Option<Qualident>, number: u32) -> Option<TypeName>
    requires { number + 1 + base_width base < 2 ^ 32 }
    ensures { result ≡ base_of base number }
{
    match base {
        None => None,
        Some(name) => {
            let head = number + 2;
            let member = member_at(name.member, head);
            Some(TypeName { head, member })
        }
    }
}

/// Appends a record, which begins with the next token. The builder is not advanced.
#[inline(always)]
#[tactic(auto, using(crate::proofs::TypeLayers::names_made))]
pub fn add_record(builder: &mut TableBuilder, context: Context, base: Option<Qualident>)
    requires { builder.old.number + 1 + base_width base < 2 ^ 32 }
    // Exactly the entry of the record is appended, unless an allocation fails.
    ensures stage { PerformsStep (λ s. added (record_row base context s.number) s) builder.old builder.new }
    // The builder is not advanced.
    ensures number { builder.new.number ≡ builder.old.number }
{
    let number = builder.number;
    let base = base_name(base, number);
    builder.add_record(RecordRow {
        number,
        owner: context.decl_group,
        base,
    })
}

/// The context of the fields of the record whose RECORD keyword has this token number.
pub fn record_context(context: Context, number: u32) -> Context
    ensures { result ≡ in_record context number }
{
    Context {
        of_record: number,
        is_target: false,
        ..context
    }
}

/// Appends the name of the base in parentheses, if the record has one.
#[inline(always)]
#[tactic(auto, using(crate::proofs::TypeLayers::names_made))]
pub fn append_base(builder: &mut TableBuilder, context: Context, base: Option<Qualident>)
    requires { builder.old.number + base_width base < 2 ^ 32 }
    // Exactly the entry of the name is appended, if there is a base, unless an allocation fails.
    ensures stage { PerformsStep (after (if_present (λ q. both token (both (qualident_rows q) token)) base) context) builder.old builder.new }
    // The tokens of the base and its parentheses are consumed, if there is a base.
    ensures number { builder.new.number ≡ builder.old.number + base_width base }
{
    match base {
        None => {}
        Some(base) => {
            builder.advance();
            append_qualident(builder, context, base);
            builder.advance();
        }
    }
}
