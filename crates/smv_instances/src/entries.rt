//! What a module declares.

ghost use Rattle.std.specs.Prelude.{◌≡◌, ◌++◌, map, flat_map, IfOk};
ghost use Rattle.smv_instances.specs.Plain.{plain_declaration, plain_definition, plain_form, plain_formal, plain_module, plain_section};
ghost use Rattle.smv_instances.specs.Entries.{entity_of_form, entries, of_declaration, of_definition, of_formal, of_section};
ghost use Rattle.smv_instances.specs.Numbered.{plain_entity, plain_entry};

use kripke_model::Name;
use smv_parser::{
    Declaration, Definition, Expr, Formal, Module, Plain, Section, SectionKind, TypeForm, TypeKind,
};
use std::alloc::{AllocError, Global};

/// What a name stands for in a module.
#[derive(Clone, Copy)]
pub enum Entity<'p> {
    /// A formal parameter.
    Parameter,
    /// A variable or an array.
    Stored(&'p Plain),
    /// An instance of a module.
    Instance {
        process: bool,
        module: &'p Name,
        actuals: &'p [Expr],
    },
    /// A defined symbol.
    Defined(&'p Expr),
}

/// A name that a module declares, and the line where it does.
#[derive(Clone, Copy)]
pub struct Entry<'p> {
    pub name: &'p Name,
    pub line: u32,
    pub entity: Entity<'p>,
}

fn formal_entry(formal: &Formal) -> Entry<'_>
    ensures { plain_entry result ≡ of_formal (plain_formal formal.now) }
{
    Entry {
        name: &formal.name,
        line: formal.line,
        entity: Entity::Parameter,
    }
}

fn form_entity(form: &TypeForm) -> Entity<'_>
    ensures { plain_entity result ≡ entity_of_form (plain_form form.now) }
{
    match &form.kind {
        TypeKind::Plain(plain) => Entity::Stored(plain),
        TypeKind::Instance {
            process,
            module,
            actuals,
        } => Entity::Instance {
            process: *process,
            module,
            actuals: actuals.as_slice(),
        },
    }
}

fn declaration_entry(declaration: &Declaration) -> Entry<'_>
    ensures { plain_entry result ≡ of_declaration (plain_declaration declaration.now) }
{
    Entry {
        name: &declaration.name,
        line: declaration.line,
        entity: form_entity(&declaration.form),
    }
}

fn definition_entry(definition: &Definition) -> Entry<'_>
    ensures { plain_entry result ≡ of_definition (plain_definition definition.now) }
{
    Entry {
        name: &definition.name,
        line: definition.line,
        entity: Entity::Defined(&definition.right),
    }
}

fn push_formals<'p>(entries: &mut Vec<Entry<'p>>, formals: &'p [Formal]) -> Result<(), AllocError>
    ensures { IfOk result (λ _. map plain_entry entries.new.items
        ≡ map plain_entry entries.old.items ++ map of_formal (map plain_formal formals.now)) }
{
    for formal in formals {
        entries.push(formal_entry(formal))?;
    }
    Ok(())
}

fn push_declarations<'p>(
    entries: &mut Vec<Entry<'p>>,
    declarations: &'p [Declaration],
) -> Result<(), AllocError>
    ensures { IfOk result (λ _. map plain_entry entries.new.items
        ≡ map plain_entry entries.old.items ++ map of_declaration
        (map plain_declaration declarations.now)) }
{
    for declaration in declarations {
        entries.push(declaration_entry(declaration))?;
    }
    Ok(())
}

fn push_definitions<'p>(
    entries: &mut Vec<Entry<'p>>,
    definitions: &'p [Definition],
) -> Result<(), AllocError>
    ensures { IfOk result (λ _. map plain_entry entries.new.items
        ≡ map plain_entry entries.old.items ++ map of_definition
        (map plain_definition definitions.now)) }
{
    for definition in definitions {
        entries.push(definition_entry(definition))?;
    }
    Ok(())
}

fn push_section<'p>(entries: &mut Vec<Entry<'p>>, section: &'p Section) -> Result<(), AllocError>
    ensures { IfOk result (λ _. map plain_entry entries.new.items
        ≡ map plain_entry entries.old.items ++ of_section (plain_section section.now)) }
{
    match &section.kind {
        SectionKind::Variables(declarations) => push_declarations(entries, declarations),
        SectionKind::Definitions(definitions) => push_definitions(entries, definitions),
        SectionKind::Assignments(_) | SectionKind::Condition(_, _) => Ok(()),
    }
}

fn push_sections<'p>(
    entries: &mut Vec<Entry<'p>>,
    sections: &'p [Section],
) -> Result<(), AllocError>
    ensures { IfOk result (λ _. map plain_entry entries.new.items
        ≡ map plain_entry entries.old.items ++ flat_map of_section
        (map plain_section sections.now)) }
{
    for section in sections {
        push_section(entries, section)?;
    }
    Ok(())
}

/// The formal parameters, then what the sections declare, in text order.
pub fn entries_of<'p>(alloc: Global, source: &'p Module) -> Result<Vec<Entry<'p>>, AllocError>
    ensures { IfOk result (λ es. map plain_entry es.items ≡ entries (plain_module source.now)) }
{
    let mut entries = Vec::new(alloc);
    push_formals(&mut entries, &source.formals)?;
    push_sections(&mut entries, &source.sections)?;
    Ok(entries)
}
