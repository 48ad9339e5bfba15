//! Expressions with parentheses around each operator and its operands. Those of the text stand as well.

use case_text::telling::Telling;
use smv_parser::{
    Arm, BinaryOperator, Expr, ExprKind, Path, PathPart, PathQuantifier, PrefixOperator,
};

fn binary_word(operator: BinaryOperator) -> &'static str {
    match operator {
        BinaryOperator::Implies => "->",
        BinaryOperator::Iff => "<->",
        BinaryOperator::Or => "|",
        BinaryOperator::And => "&",
        BinaryOperator::Equal => "=",
        BinaryOperator::Less => "<",
        BinaryOperator::Greater => ">",
        BinaryOperator::LessOrEqual => "<=",
        BinaryOperator::GreaterOrEqual => ">=",
        BinaryOperator::In => " in ",
        BinaryOperator::Union => " union ",
        BinaryOperator::Mod => " mod ",
        BinaryOperator::Add => "+",
        BinaryOperator::Subtract => "-",
        BinaryOperator::Multiply => "*",
        BinaryOperator::Divide => "/",
    }
}

fn prefix_word(operator: PrefixOperator) -> &'static str {
    match operator {
        PrefixOperator::Not => "!",
        PrefixOperator::ExistsNext => "EX ",
        PrefixOperator::AllNext => "AX ",
        PrefixOperator::ExistsFinally => "EF ",
        PrefixOperator::AllFinally => "AF ",
        PrefixOperator::ExistsGlobally => "EG ",
        PrefixOperator::AllGlobally => "AG ",
    }
}

fn quantifier_word(quantifier: PathQuantifier) -> &'static str {
    match quantifier {
        PathQuantifier::Exists => "E",
        PathQuantifier::All => "A",
    }
}

pub fn truth_word(truth: bool) -> &'static str {
    if truth { "TRUE" } else { "FALSE" }
}

/// Adds the comma before each member of a list but the first.
pub fn separate(index: usize, answer: &mut Telling) {
    if index > 0 {
        answer.add(", ");
    }
}

/// Adds an expression between two texts.
#[cycle(tell)]
fn tell_between(front: &str, expr: &Expr, back: &str, answer: &mut Telling) {
    answer.add(front);
    tell_expr(expr, answer);
    answer.add(back);
}

#[cycle(tell)]
pub fn tell_expr(expr: &Expr, answer: &mut Telling) {
    match &expr.kind {
        ExprKind::Number(number) => write!(answer, "{number}"),
        ExprKind::Truth(truth) => answer.add(truth_word(*truth)),
        ExprKind::Running => answer.add("running"),
        ExprKind::Path(path) => tell_path(path, answer),
        ExprKind::Next(e) => tell_between("next(", e, ")", answer),
        ExprKind::Parens(e) => tell_between("(", e, ")", answer),
        ExprKind::Braces(elements) => tell_braces(elements, answer),
        ExprKind::Case(arms) => tell_arms(arms, answer),
        ExprKind::Until(quantifier, f, g) => {
            answer.add(quantifier_word(*quantifier));
            tell_between(" [", f, " U ", answer);
            tell_between("", g, "]", answer)
        }
        ExprKind::Prefix(operator, e) => {
            answer.add("(");
            tell_between(prefix_word(*operator), e, ")", answer)
        }
        ExprKind::Binary(operator, a, b) => {
            tell_between("(", a, binary_word(*operator), answer);
            tell_between("", b, ")", answer)
        }
    }
}

#[cycle(tell)]
fn tell_braces(elements: &[Expr], answer: &mut Telling) {
    answer.add("{");
    for (index, e) in elements.iter().enumerate() {
        separate(index, answer);
        tell_expr(e, answer);
    }
    answer.add("}");
}

#[cycle(tell)]
fn tell_arms(arms: &[Arm], answer: &mut Telling) {
    answer.add("case ");
    for arm in arms {
        tell_between("", &arm.guard, " : ", answer);
        tell_between("", &arm.right, "; ", answer);
    }
    answer.add("esac");
}

#[cycle(tell)]
pub fn tell_path(path: &Path, answer: &mut Telling) {
    answer.add(path.first.as_str());
    for part in &path.parts {
        match part {
            PathPart::Field(name) => write!(answer, ".{}", name.as_str()),
            PathPart::Index(e) => tell_between("[", e, "]", answer),
        }
    }
}
