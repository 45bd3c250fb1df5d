//! The lines before the first call: the limits and the layers.
ghost use Rattle.std.specs.Prelude.{◌≡◌, ◌+◌, true, length, vec_len, IfOk, IfErr, OnOk, Ok};
ghost use Rattle.span_json.specs.Seen.{view};
ghost use Rattle.span_layers.specs.Layers.{filters_in};
ghost use Rattle.span_replay.specs.Answer.{answer_text};
ghost use Rattle.span_replay.specs.Meaning.{limits_turn, layer_turn, turn_of, value_turn};
ghost use Rattle.span_script.specs.Operation.{is_setup};
ghost use Rattle.span_script.specs.Reason.{StopsFor};
ghost use Rattle.span_replay.specs.State.{first_state};
ghost use Rattle.span_replay.specs.inside.Turns.{SetsUp};
ghost use Rattle.span_script.specs.Views.{layer_seen, operation_seen};

use crate::run::answer::{Answer, write_answer};
use span_id::{Checked, Fault, Limits};
use span_json::Value;
use span_layers::{Admitters, Formatters, Forms, Hooks, Layer, Layers, MAX_LAYERS, Rules};
use span_script::{NewLayer, Operation, Stage, Stop, operation_in_line};
use std::alloc::Global;

/// The greatest number of workers that a script may ask for.
const MAX_WORKERS: u32 = 256;

/// The limits that stand, the layers that were added, and the hooks for further layers, the next ones last.
#[derive(Drop)]
pub struct Setup<A, F> {
    checked: Checked,
    layers: Layers<A, F>,
    added: usize,
    hooks: Vec<Hooks<A, F>>,
    stage: Stage,
    ghost numbered: { added ≡ length (filters_in layers) },
}

/// What the lines before the first call gave, as plain data.
#[derive(Drop)]
pub struct Opened {
    /// The limits that stand.
    pub checked: Checked,
    /// What the layers admit and want.
    pub rules: Rules,
    /// In which forms they write.
    pub forms: Forms,
}

impl<A: Drop, F: Drop> Setup<A, F> {
    ghost use Rattle.span_replay.specs.inside.Setup.{opened_in, setup_state, hooks_in};

    /// The limits of a script that gives none, and no layers. Each layer takes one of the hooks, in their order.
    pub fn new(alloc: Global, mut hooks: Vec<Hooks<A, F>>) -> Setup<A, F>
        ensures state { setup_state result ≡ first_state }
        ensures hooks { hooks_in result ≡ vec_len hooks }
    {
        let Ok(checked) = Limits::default().check() else {
            unreachable!()
        };
        hooks.reverse();
        Setup {
            checked,
            layers: Layers::new(alloc),
            added: 0,
            hooks,
            stage: Stage::AtStart,
        }
    }

    /// Runs a line of `limits` or `layer`. The text is its answer.
    pub fn run(&mut self, alloc: Global, line: &Value<'_>, text: &mut Vec<u8>) -> Result<(), Stop>
        requires { is_setup (view line.now) ≡ true }
        ensures ok { OnOk result (value_turn (hooks_in self.old) (setup_state self.old) (view line.now)
            ≡ Ok (record { text = text.new.items; state = setup_state self.new })) }
        ensures err { IfErr result (StopsFor (value_turn (hooks_in self.old) (setup_state self.old) (view line.now))) }
        ensures hooks { OnOk result (hooks_in self.new ≡ hooks_in self.old) }
    {
        let workers = self.checked.limits().workers as usize;
        let operation = operation_in_line(alloc, line, workers, self.stage)?;
        let answer = self.obey(operation)?;
        self.stage = Stage::InSetup;
        text.clear();
        write_answer(text, answer)
    }

    /// Runs `limits` or `layer`.
    fn obey(&mut self, operation: Operation<'_>) -> Result<Answer, Stop>
        requires { SetsUp (operation_seen operation) }
        ensures ok { IfOk result (λ answer. turn_of (hooks_in self.old) (setup_state self.old)
            (operation_seen operation.entry)
            ≡ Ok (record { text = answer_text answer; state = setup_state self.new })) }
        ensures memory { IfErr result (λ stop. stop ≡ Stop.Memory) }
        ensures hooks { OnOk result (hooks_in self.new ≡ hooks_in self.old) }
    {
        match operation {
            Operation::Limits(limits) => Ok(self.set_limits(limits)),
            Operation::Layer(layer) => self.add_layer(layer),
            _ => unreachable!(),
        }
    }

    /// Takes these limits, where they are in their ranges.
    fn set_limits(&mut self, limits: Limits) -> Answer
        ensures state { limits_turn (setup_state self.old) limits
            ≡ record { text = answer_text result; state = setup_state self.new } }
        ensures hooks { hooks_in self.new ≡ hooks_in self.old }
    {
        if limits.workers > MAX_WORKERS {
            return Answer::Refused(Fault::BadLimits);
        }
        match limits.check() {
            Ok(checked) => {
                self.checked = checked;
                Answer::Limits
            }
            Err(fault) => Answer::Refused(fault),
        }
    }

    /// Adds a layer with the next hooks, where there are some left and the layers are fewer than 64.
    fn add_layer(&mut self, layer: NewLayer) -> Result<Answer, Stop>
        ensures ok { IfOk result (λ answer. layer_turn (hooks_in self.old) (setup_state self.old) (layer_seen layer)
            ≡ record { text = answer_text answer; state = setup_state self.new }) }
        ensures memory { IfErr result (λ stop. stop ≡ Stop.Memory) }
        ensures hooks { OnOk result (hooks_in self.new ≡ hooks_in self.old) }
    {
        if self.added >= MAX_LAYERS {
            return Ok(Answer::Refused(Fault::TooManyLayers));
        }
        let Some(hooks) = self.hooks.pop() else {
            return Ok(Answer::Refused(Fault::TooManyLayers));
        };
        let NewLayer { style, rule } = layer;
        match self.layers.add(Layer { style, rule, hooks }) {
            Ok(number) => {
                self.added += 1;
                Ok(Answer::Layer(number))
            }
            Err(_) => Err(Stop::Memory),
        }
    }

    /// What the lines gave, and what applies the layers' rules and writes their notes.
    pub fn split(self) -> (Opened, Admitters<A>, Formatters<F>)
        ensures { opened_in result.0 (setup_state self).stage ≡ setup_state self }
    {
        let (filters, formatting) = self.layers.split();
        let opened = Opened {
            checked: self.checked,
            rules: filters.rules,
            forms: formatting.forms,
        };
        (opened, filters.admitters, formatting.formatters)
    }
}
