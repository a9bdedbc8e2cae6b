//! The entries of names that the scope rule looks up.

ghost use Rattle.std.specs.Prelude.{◌≡◌, ◌+◌, ◌<◌, ◌≤◌, ◌^◌};
ghost use Rattle.ob_tree.specs.Widths.{name_width};
ghost use Rattle.module_table.specs.TableStages.{after, PerformsStep};
ghost use Rattle.table_rules.specs.Expressions.{after_dot, used};
ghost use Rattle.table_rules.specs.Statements.{qualident_rows, variable_rows};

use module_table::builder::{Context, TableBuilder};
use module_table::{Designator, Used};
use ob_tree::name::Qualident;

/// The index of the name after the dot that follows the token `head`, if there is one.
pub(crate) fn member_at(member: Option<u32>, head: u32) -> Option<u32>
    requires { head + name_width member ≤ 2 ^ 32 }
    ensures { result ≡ after_dot member head }
{
    match member {
        None => None,
        Some(_) => Some(head + 2),
    }
}

/// Appends a use of an identifier that is not the target of a pointer. `member` is `Some` if a dot and a name follow.
#[tactic(auto, using(module_table::proofs::Steps::steps))]
pub fn append_use(builder: &mut TableBuilder, context: Context, member: Option<u32>)
    requires advanced { builder.old.number + 1 < 2 ^ 32 }
    requires member { builder.old.number + name_width member ≤ 2 ^ 32 }
    // Exactly the entry of the use is appended, unless an allocation fails.
    ensures stage { PerformsStep (after (used member) context) builder.old builder.new }
    // One token is consumed.
    ensures number { builder.new.number ≡ builder.old.number + 1 }
{
    let number = builder.number;
    let member = member_at(member, number);
    builder.add_used(Used {
        number,
        block: context.block,
        is_target: false,
        member,
    });
    builder.advance();
}

/// Appends a use of a qualified identifier.
#[tactic(auto, using(crate::proofs::StatementLayers::labels_made))]
pub fn append_qualident(builder: &mut TableBuilder, context: Context, name: Qualident)
    requires { builder.old.number + name_width name.member < 2 ^ 32 }
    // Exactly the entry of the use is appended, unless an allocation fails.
    ensures stage { PerformsStep (after (qualident_rows name) context) builder.old builder.new }
    // The tokens of the qualified identifier are consumed.
    ensures number { builder.new.number ≡ builder.old.number + name_width name.member }
{
    append_use(builder, context, name.member);
    match name.member {
        None => {}
        Some(_) => {
            builder.advance();
            builder.advance();
        }
    }
}

/// Appends the variable of a FOR statement, which is written.
#[tactic(auto, using(crate::proofs::StatementLayers::labels_made))]
pub fn append_for_variable(builder: &mut TableBuilder, context: Context)
    requires { builder.old.number + 1 < 2 ^ 32 }
    // Exactly the two entries of the variable are appended, unless an allocation fails.
    ensures stage { PerformsStep (after variable_rows context) builder.old builder.new }
    // One token is consumed.
    ensures number { builder.new.number ≡ builder.old.number + 1 }
{
    let head = builder.number;
    builder.add_designator(Designator {
        head,
        block: context.block,
        is_written: true,
    });
    append_use(builder, context, None)
}
