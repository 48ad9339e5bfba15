//! What is asked of a text.
//!
//! | Question | Asks for |
//! |---|---|
//! | `flat TEXT`, or a text alone | whether the text has a flat model |
//! | `count TEXT` | how many flat variables there are |
//! | `variables TEXT` | the names of the flat variables |
//! | `sizes TEXT` | how many values each flat variable has |
//! | `declared TEXT` | each flat variable with its line and its values |
//! | `number NAME in TEXT` | the number of the flat variable of this name |
//! | `symbols TEXT` | the symbolic constants |
//! | `selector TEXT` | whether the first flat variable names the process that makes the step |
//! | `processes TEXT` | the names of the processes |
//! | `assigned TEXT` | the variable of each assignment |
//! | `movers TEXT` | the process of each assignment |
//! | `assignments TEXT` | each assignment with its variable, its process and its line |
//! | `running TEXT` | the number of the process of each constraint, which is `running` |
//! | `specs TEXT`, `invars TEXT` | the line of each specification, and of each `INVAR` |
//! | `instances TEXT` | how many instances there are, and the numbers of those that are processes |
//! | `denotes PATH in TEXT` | what the path, which is read in `main`, denotes |
//! | `known PATH in TEXT` | the number and the size of the definition that the path names |
//! | `order TEXT` | the order of the abbreviations, with `!` behind one that is circular |
//! | `ends TEXT` | where the chain of each abbreviation ends |

/// What is asked of a flat model.
#[derive(Clone, Copy)]
pub enum ModelPart {
    /// That there is one.
    Flat,
    Count,
    Variables,
    Sizes,
    Declared,
    Number,
    Symbols,
    Selector,
    Processes,
    Assigned,
    Movers,
    Assignments,
    Running,
    Specs,
    Invars,
}

/// What is asked of the instances and paths of a program.
#[derive(Clone, Copy)]
pub enum PathPart {
    Instances,
    Denotes,
    Known,
    Order,
    Ends,
}

/// What is asked.
#[derive(Clone, Copy)]
pub enum Asked {
    Model(ModelPart),
    Path(PathPart),
}

impl Asked {
    /// Whether it is asked of a path or a name.
    fn has_subject(self) -> bool {
        matches!(
            self,
            Asked::Model(ModelPart::Number) | Asked::Path(PathPart::Denotes | PathPart::Known)
        )
    }
}

/// A question: what is asked, of which path or name, and the text that is put into the text of the case.
#[derive(Clone, Copy)]
pub struct Question<'q> {
    pub asked: Asked,
    pub subject: &'q str,
    pub text: &'q str,
}

/// What the word asks for; `None` where it is no such word.
fn asked_of(word: &str) -> Option<Asked> {
    let asked = match word {
        "flat" => Asked::Model(ModelPart::Flat),
        "count" => Asked::Model(ModelPart::Count),
        "variables" => Asked::Model(ModelPart::Variables),
        "sizes" => Asked::Model(ModelPart::Sizes),
        "declared" => Asked::Model(ModelPart::Declared),
        "number" => Asked::Model(ModelPart::Number),
        "symbols" => Asked::Model(ModelPart::Symbols),
        "selector" => Asked::Model(ModelPart::Selector),
        "processes" => Asked::Model(ModelPart::Processes),
        "assigned" => Asked::Model(ModelPart::Assigned),
        "movers" => Asked::Model(ModelPart::Movers),
        "assignments" => Asked::Model(ModelPart::Assignments),
        "running" => Asked::Model(ModelPart::Running),
        "specs" => Asked::Model(ModelPart::Specs),
        "invars" => Asked::Model(ModelPart::Invars),
        "instances" => Asked::Path(PathPart::Instances),
        "denotes" => Asked::Path(PathPart::Denotes),
        "known" => Asked::Path(PathPart::Known),
        "order" => Asked::Path(PathPart::Order),
        "ends" => Asked::Path(PathPart::Ends),
        _ => return None,
    };
    Some(asked)
}

/// The question of a word with what stands behind it.
fn question_of(asked: Asked, rest: &str) -> Question<'_> {
    if !asked.has_subject() {
        return Question {
            asked,
            subject: "",
            text: rest,
        };
    }
    let (subject, text) = rest.split_once(" in ").unwrap_or((rest, ""));
    Question {
        asked,
        subject,
        text,
    }
}

/// The question that is written.
pub fn read_question(question: &str) -> Question<'_> {
    let (word, rest) = question.split_once(' ').unwrap_or((question, ""));
    match asked_of(word) {
        Some(asked) => question_of(asked, rest),
        None => question_of(Asked::Model(ModelPart::Flat), question),
    }
}
