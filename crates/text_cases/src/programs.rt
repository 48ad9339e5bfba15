//! Programs on one line: each part behind the number of its first token's line.

use crate::expressions::{separate, tell_expr, tell_path, truth_word};
use case_text::telling::Telling;
use smv_parser::{
    Assignment, Condition, Constant, ConstantKind, Declaration, Definition, Expr, Formal, Left,
    LeftKind, Module, Plain, PlainKind, Program, Section, SectionKind, TypeForm, TypeKind,
};

pub fn tell_program(program: &Program, answer: &mut Telling) {
    for (index, module) in program.modules.iter().enumerate() {
        if index > 0 {
            answer.add(" ");
        }
        tell_module(module, answer);
    }
}

fn tell_module(module: &Module, answer: &mut Telling) {
    write!(answer, "{} MODULE {}", module.line, module.name.as_str());
    if !module.formals.is_empty() {
        tell_formals(&module.formals, answer);
    }
    for section in &module.sections {
        write!(answer, " {} ", section.line);
        tell_section(&section.kind, answer);
    }
}

fn tell_formals(formals: &[Formal], answer: &mut Telling) {
    answer.add("(");
    for (index, formal) in formals.iter().enumerate() {
        separate(index, answer);
        write!(answer, "{} {}", formal.line, formal.name.as_str());
    }
    answer.add(")");
}

fn tell_section(section: &SectionKind, answer: &mut Telling) {
    match section {
        SectionKind::Variables(declarations) => {
            answer.add("VAR");
            for declaration in declarations {
                tell_declaration(declaration, answer);
            }
        }
        SectionKind::Assignments(assignments) => {
            answer.add("ASSIGN");
            for assignment in assignments {
                tell_assignment(assignment, answer);
            }
        }
        SectionKind::Definitions(definitions) => {
            answer.add("DEFINE");
            for definition in definitions {
                tell_definition(definition, answer);
            }
        }
        SectionKind::Condition(condition, expr) => {
            answer.add(condition_word(*condition));
            tell_lined(expr, answer);
        }
    }
}

fn condition_word(condition: Condition) -> &'static str {
    match condition {
        Condition::Init => "INIT ",
        Condition::Invar => "INVAR ",
        Condition::Trans => "TRANS ",
        Condition::Spec => "SPEC ",
        Condition::Fairness => "FAIRNESS ",
    }
}

fn tell_lined(expr: &Expr, answer: &mut Telling) {
    write!(answer, "{} ", expr.line);
    tell_expr(expr, answer);
}

fn tell_declaration(declaration: &Declaration, answer: &mut Telling) {
    let name = declaration.name.as_str();
    write!(answer, " {} {name} : ", declaration.line);
    tell_type(&declaration.form, answer);
    answer.add(";");
}

fn tell_type(form: &TypeForm, answer: &mut Telling) {
    match &form.kind {
        TypeKind::Plain(plain) => tell_plain(plain, answer),
        TypeKind::Instance {
            process,
            module,
            actuals,
        } => {
            let word = if *process { "process " } else { "" };
            write!(answer, "{} {word}{}", form.line, module.as_str());
            tell_actuals(actuals, answer)
        }
    }
}

fn tell_actuals(actuals: &[Expr], answer: &mut Telling) {
    answer.add("(");
    for (index, actual) in actuals.iter().enumerate() {
        separate(index, answer);
        tell_lined(actual, answer);
    }
    answer.add(")");
}

fn tell_plain(plain: &Plain, answer: &mut Telling) {
    write!(answer, "{} ", plain.line);
    match &plain.kind {
        PlainKind::Boolean => answer.add("boolean"),
        PlainKind::Enumeration(constants) => tell_constants(constants, answer),
        PlainKind::Range(low, high) => write!(answer, "{low}..{high}"),
        PlainKind::Array(low, high, plain) => {
            write!(answer, "array {low}..{high} of ");
            tell_plain(plain, answer)
        }
    }
}

fn tell_constants(constants: &[Constant], answer: &mut Telling) {
    answer.add("{");
    for (index, constant) in constants.iter().enumerate() {
        separate(index, answer);
        write!(answer, "{} ", constant.line);
        match &constant.kind {
            ConstantKind::Name(name) => answer.add(name.as_str()),
            ConstantKind::Number(number) => write!(answer, "{number}"),
            ConstantKind::Truth(truth) => answer.add(truth_word(*truth)),
        }
    }
    answer.add("}");
}

fn tell_assignment(assignment: &Assignment, answer: &mut Telling) {
    tell_left(&assignment.left, answer);
    answer.add(" := ");
    tell_lined(&assignment.right, answer);
    answer.add(";");
}

fn tell_left(left: &Left, answer: &mut Telling) {
    let (front, back) = match left.kind {
        LeftKind::Current => ("", ""),
        LeftKind::Init => ("init(", ")"),
        LeftKind::Next => ("next(", ")"),
    };
    write!(answer, " {} {front}", left.line);
    tell_path(&left.path, answer);
    answer.add(back);
}

fn tell_definition(definition: &Definition, answer: &mut Telling) {
    let name = definition.name.as_str();
    write!(answer, " {} {name} := ", definition.line);
    tell_lined(&definition.right, answer);
    answer.add(";");
}
