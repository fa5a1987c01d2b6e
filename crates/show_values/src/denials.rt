// What `denials` prints.

ghost use Rattle.std.specs.Prelude.{◌≡◌, ◌++◌, [], codes, decimal, OnOk, IfOk, string_bytes};
ghost use Rattle.base_json.specs.declared.form.Form.TheVariants.{Plain};
ghost use Rattle.base_json.specs.Objects.{line_of, object};
ghost use Rattle.base_texts.specs.Puts.{Puts};
ghost use Rattle.show_values.specs.Denials.{denial_text, denial_members, denial_row, event_members, rule_members, answer_members, refresh_denial_row, refresh_rows, is_end_stop, undone_text, undone_members, undone_row, answer_row, denials_rows, answers_rows, denied_in};
ghost use Rattle.group_spec.specs.Snapshot.{task_name};

use base_json::form::Form;
use base_json::object::Object;
use group_rounds::observer::Observer;
use group_spec::calls::Answer;
use group_spec::report::{Answered, Denial, Report, Rule};
use group_world::World;
use std::alloc::{AllocError, Global};

/// Writes a row for each wish, or running motor, that the interlock denies, and for each tell or serve that is not done.
#[derive(Drop)]
pub struct Denials {
    alloc: Global,
    /// In which form.
    pub form: Form,
    /// Whether also the stops at the ends of the shaft are shown, which no program can avoid.
    pub all: bool,
    /// The rows so far.
    pub text: String,
}

impl Denials {
    /// Nothing was seen yet; lines are written.
    pub fn new(alloc: Global, all: bool) -> Denials
        ensures form { result.form ≡ Plain }
        ensures all { result.all ≡ all }
        ensures text { string_bytes result.text ≡ [] }
    {
        Denials::in_form(alloc, Form::Plain, all)
    }

    /// Nothing was seen yet; rows are written in a form.
    pub fn in_form(alloc: Global, form: Form, all: bool) -> Denials
        ensures form { result.form ≡ form }
        ensures all { result.all ≡ all }
        ensures text { string_bytes result.text ≡ [] }
    {
        Denials {
            alloc,
            form,
            all,
            text: String::new(alloc),
        }
    }
}

impl Observer for Denials {
    ghost text = { λ d. string_bytes d.text };

    ghost shows = { λ d. denied_in d.form d.all };

    fn refreshed(&mut self, round: u16, report: &Report) -> Result<(), AllocError> {
        put_refresh(
            self.alloc,
            &mut self.text,
            self.form,
            self.all,
            u32::from(round),
            report.denials.as_slice(),
        )
    }

    fn committed(&mut self, round: u16, task: u8, report: &Report) -> Result<(), AllocError> {
        let round = u32::from(round);
        let (alloc, form) = (self.alloc, self.form);
        put_denials(
            alloc,
            &mut self.text,
            form,
            round,
            report.denials.as_slice(),
        )?;
        let answers = report.answers.as_slice();
        put_answers(alloc, &mut self.text, form, round, task, answers)
    }

    fn ended(&mut self, _round: u16, _world: &World) -> Result<(), AllocError> {
        Ok(())
    }
}

/// The denials of a refresh.
pub fn put_refresh(
    alloc: Global,
    text: &mut String,
    form: Form,
    all: bool,
    round: u32,
    denials: &[Denial],
) -> Result<(), AllocError>
    ensures { OnOk result (Puts text.old text.new (refresh_rows form all round denials.now)) }
{
    'denials: for denial in denials {
        put_refresh_denial(alloc, text, form, all, round, *denial)?;
    }
    Ok(())
}

fn put_refresh_denial(
    alloc: Global,
    text: &mut String,
    form: Form,
    all: bool,
    round: u32,
    denial: Denial,
) -> Result<(), AllocError>
    ensures { OnOk result (Puts text.old text.new (refresh_denial_row form all round denial)) }
{
    if all || !is_end_stop(denial.rule) {
        put_denial(alloc, text, form, "refresh", round, denial)
    } else {
        Ok(())
    }
}

// Whether a rule stops a running car at an end of its shaft.
fn is_end_stop(rule: Rule) -> bool
    ensures { result ≡ is_end_stop rule }
{
    match rule {
        Rule::Reversal => false,
        Rule::Unlocked => false,
        Rule::AtEnd => true,
        Rule::NotLevel => false,
        Rule::Crowded => false,
        Rule::Fire => false,
    }
}

/// The denials of a commit.
pub fn put_denials(
    alloc: Global,
    text: &mut String,
    form: Form,
    round: u32,
    denials: &[Denial],
) -> Result<(), AllocError>
    ensures { OnOk result (Puts text.old text.new (denials_rows form round denials.now)) }
{
    'denials: for denial in denials {
        put_denial(alloc, text, form, "commit", round, *denial)?;
    }
    Ok(())
}

fn put_denial(
    alloc: Global,
    text: &mut String,
    form: Form,
    event: &str,
    round: u32,
    denial: Denial,
) -> Result<(), AllocError>
    ensures { OnOk result (Puts text.old text.new (denial_row form event.now round denial)) }
{
    match form {
        Form::Plain => put_denial_line(text, event, round, denial),
        Form::Json => put_denial_object(alloc, text, event, round, denial),
    }
}

// `round R EVENT CARc rule n: sentence`.
#[tactic(auto, unfolding(crate::specs::Denials::denial_text))]
fn put_denial_line(
    text: &mut String,
    event: &str,
    round: u32,
    denial: Denial,
) -> Result<(), AllocError>
    ensures { OnOk result (Puts text.old text.new (denial_text event.now round denial)) }
{
    let rule = denial.rule;
    write!(text, "round {} {} CAR{}", round, event, denial.car)?;
    writeln!(text, " rule {}: {}", rule.number(), rule.sentence())
}

// Its object.
fn put_denial_object(
    alloc: Global,
    text: &mut String,
    event: &str,
    round: u32,
    denial: Denial,
) -> Result<(), AllocError>
    ensures { OnOk result (Puts text.old text.new
        (line_of (object (denial_members event.now round denial)))) }
{
    let task = format!(in alloc; "CAR{}", denial.car)?;
    let mut object = Object::begin(alloc)?;
    add_event(&mut object, round, event, &task)?;
    add_rule(&mut object, denial.rule)?;
    object.put_line(text)
}

// The round, the event and its task.
#[tactic(auto, unfolding(crate::specs::Denials::event_members))]
fn add_event(object: &mut Object, round: u32, event: &str, task: &str) -> Result<(), AllocError>
    ensures { OnOk result (object.new ≡ object.old ++ event_members round event.now task.now) }
{
    object.number_member("round", u64::from(round))?;
    object.text_member("by", event)?;
    object.text_member("task", task)
}

// A rule, and what it says.
#[tactic(auto, unfolding(crate::specs::Denials::rule_members))]
fn add_rule(object: &mut Object, rule: Rule) -> Result<(), AllocError>
    ensures { OnOk result (object.new ≡ object.old ++ rule_members rule) }
{
    object.number_member("rule", u64::from(rule.number()))?;
    object.text_member("says", rule.sentence())
}

// A slot, and what its tell or serve was answered.
#[tactic(auto, unfolding(crate::specs::Denials::answer_members))]
fn add_answer(object: &mut Object, slot: u8, answer: &str) -> Result<(), AllocError>
    ensures { OnOk result (object.new ≡ object.old ++ answer_members slot answer.now) }
{
    object.number_member("slot", u64::from(slot))?;
    object.text_member("answer", answer)
}

/// The tells of a commit, or its serve, that were not done.
pub fn put_answers(
    alloc: Global,
    text: &mut String,
    form: Form,
    round: u32,
    task: u8,
    answers: &[Answered],
) -> Result<(), AllocError>
    ensures { OnOk result (Puts text.old text.new (answers_rows form round task answers.now)) }
{
    'answers: for answer in answers {
        put_answer(alloc, text, form, round, task, answer.slot, answer.answer)?;
    }
    Ok(())
}

fn put_answer(
    alloc: Global,
    text: &mut String,
    form: Form,
    round: u32,
    task: u8,
    slot: u8,
    answer: Answer,
) -> Result<(), AllocError>
    ensures { OnOk result (Puts text.old text.new (answer_row form round task slot answer)) }
{
    match answer {
        Answer::Done => Ok(()),
        Answer::Stale => put_undone(alloc, text, form, round, task, slot, "stale"),
        Answer::NotYours => put_undone(alloc, text, form, round, task, slot, "not yours"),
        Answer::NoSlot => put_undone(alloc, text, form, round, task, slot, "no slot"),
    }
}

fn put_undone(
    alloc: Global,
    text: &mut String,
    form: Form,
    round: u32,
    task: u8,
    slot: u8,
    answer: &str,
) -> Result<(), AllocError>
    ensures { OnOk result (Puts text.old text.new (undone_row form round task slot answer.now)) }
{
    match form {
        Form::Plain => put_undone_line(text, round, task, slot, answer),
        Form::Json => put_undone_object(alloc, text, round, task, slot, answer),
    }
}

// Its object.
fn put_undone_object(
    alloc: Global,
    text: &mut String,
    round: u32,
    task: u8,
    slot: u8,
    answer: &str,
) -> Result<(), AllocError>
    ensures { OnOk result (Puts text.old text.new
        (line_of (object (undone_members round task slot answer.now)))) }
{
    let mut name = String::new(alloc);
    put_task(&mut name, task)?;
    let mut object = Object::begin(alloc)?;
    add_event(&mut object, round, "commit", &name)?;
    add_answer(&mut object, slot, answer)?;
    object.put_line(text)
}

// `round R commit TASK slot S answer`.
#[tactic(auto, unfolding(crate::specs::Denials::undone_text))]
fn put_undone_line(
    text: &mut String,
    round: u32,
    task: u8,
    slot: u8,
    answer: &str,
) -> Result<(), AllocError>
    ensures { OnOk result (Puts text.old text.new (undone_text round task slot answer.now)) }
{
    write!(text, "round {} commit ", round)?;
    put_task(text, task)?;
    writeln!(text, " slot {} {}", slot, answer)
}

/// The name of a task: 0 is GROUP, k is CARk.
pub(crate) fn put_task(text: &mut String, task: u8) -> Result<(), AllocError>
    ensures { OnOk result (Puts text.old text.new (task_name task)) }
{
    match task {
        0 => text.push_str("GROUP"),
        car => write!(text, "CAR{}", car),
    }
}
