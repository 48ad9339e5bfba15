//! The items of a module.

ghost use Rattle.std.specs.Prelude.{◌≡◌, ◌++◌, map, flat_map, IfOk};
ghost use Rattle.smv_instances.specs.Plain.{plain_expr, plain_module, plain_section};
ghost use Rattle.smv_names.specs.Mentions.{plain_mention};
ghost use Rattle.smv_names.specs.Written.{plain_path};
ghost use Rattle.smv_instantiate.specs.Flattens.{section_items};
ghost use Rattle.smv_instantiate.specs.Flattens.Item.{Assigns};
ghost use Rattle.smv_instantiate.specs.Items.{item_mentions, left_mentions, plain_assigned, plain_item, stated_line};
ghost use Rattle.smv_instantiate.specs.Refuses.{expression, item_line};

use smv_names::mentions::{Mention, push_index_mentions, push_mentions};
use smv_parser::{Assignment, Condition, Expr, Module, Path, Section, SectionKind};
use std::alloc::{AllocError, Global};

/// An assignment, or the expression of an `INIT`, `INVAR`, `TRANS`, `SPEC` or `FAIRNESS`.
#[derive(Clone, Copy)]
pub enum Item<'p> {
    Assigns(&'p Assignment),
    States {
        condition: Condition,
        expr: &'p Expr,
        /// The line of the section's word.
        line: u32,
    },
}

impl<'p> Item<'p> {
    /// The right side of an assignment, or the expression of a condition.
    pub fn right(&self) -> &'p Expr
        ensures { plain_expr result.now ≡ expression (plain_item self.now) }
    {
        match self {
            Item::Assigns(assignment) => &assignment.right,
            Item::States { expr, .. } => *expr,
        }
    }

    /// The line of the expression's first token; of a specification, that of the word `SPEC`.
    pub fn line(&self) -> u32
        ensures { result ≡ item_line (plain_item self.now) }
    {
        match self {
            Item::Assigns(assignment) => assignment.right.line,
            Item::States {
                condition,
                expr,
                line,
            } => condition_line(*condition, expr.line, *line),
        }
    }
}

/// The line of a condition, of the lines of its expression and of its section.
fn condition_line(condition: Condition, expr: u32, section: u32) -> u32
    ensures { result ≡ stated_line condition expr section }
{
    match condition {
        Condition::Spec => section,
        Condition::Init | Condition::Invar | Condition::Trans | Condition::Fairness => expr,
    }
}

/// Adds the path of a left side, then those in its indexes.
fn push_left<'p>(path: &'p Path, mentions: &mut Vec<Mention<'p>>) -> Result<(), AllocError>
    ensures { IfOk result (λ _. map plain_mention mentions.new.items
        ≡ map plain_mention mentions.old.items ++ left_mentions (plain_path path.now)) }
{
    mentions.push(Mention {
        path,
        wanted: false,
    })?;
    push_index_mentions(path, mentions)
}

/// The paths of an item, in text order.
pub fn mentions_of<'p>(alloc: Global, item: &Item<'p>) -> Result<Vec<Mention<'p>>, AllocError>
    ensures { IfOk result (λ mentions. map plain_mention mentions.items
        ≡ item_mentions (plain_item item.now)) }
{
    let mut mentions = Vec::new(alloc);
    match item {
        Item::Assigns(assignment) => {
            push_left(&assignment.left.path, &mut mentions)?;
            push_mentions(&assignment.right, &mut mentions)?;
            Ok(mentions)
        }
        Item::States { expr, .. } => {
            push_mentions(*expr, &mut mentions)?;
            Ok(mentions)
        }
    }
}

fn push_assignments<'p>(
    items: &mut Vec<Item<'p>>,
    assignments: &'p [Assignment],
) -> Result<(), AllocError>
    ensures { IfOk result (λ _. map plain_item items.new.items ≡ map plain_item items.old.items
        ++ map Assigns (map plain_assigned assignments.now)) }
{
    for assignment in assignments {
        items.push(Item::Assigns(assignment))?;
    }
    Ok(())
}

fn push_section<'p>(items: &mut Vec<Item<'p>>, section: &'p Section) -> Result<(), AllocError>
    ensures { IfOk result (λ _. map plain_item items.new.items ≡ map plain_item items.old.items
        ++ section_items (plain_section section.now)) }
{
    match &section.kind {
        SectionKind::Assignments(assignments) => push_assignments(items, assignments),
        SectionKind::Condition(condition, expr) => {
            let line = section.line;
            items.push(Item::States {
                condition: *condition,
                expr,
                line,
            })?;
            Ok(())
        }
        SectionKind::Variables(_) | SectionKind::Definitions(_) => Ok(()),
    }
}

/// The items of a module, in text order.
pub fn items_of<'p>(alloc: Global, source: &'p Module) -> Result<Vec<Item<'p>>, AllocError>
    ensures { IfOk result (λ items. map plain_item items.items ≡ flat_map section_items
        (plain_module source.now).sections) }
{
    let mut items = Vec::new(alloc);
    for section in &source.sections {
        push_section(&mut items, section)?;
    }
    Ok(items)
}
