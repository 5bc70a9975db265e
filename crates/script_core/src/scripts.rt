//! A script's state, and the check that its lines pass.

ghost use Rattle.std.specs.Prelude.{◌≡◌, IfOk, IfErr, OnOk, OnErr};
ghost use Rattle.recall_text.specs.Answer.{answer_of};

use crate::beginning::begin_world;
use crate::running::Running;
use event_json::Sites;
use recall_text::answers::Answer;
use recall_text::gathering::add_site;
use recall_text::lines::Line;
use recall_text::tasks::Task;
use std::alloc::{AllocError, Global};
use std::hash::RandomState;
use std::mem;

/// What the lines of a script so far left.
#[derive(Drop)]
pub(crate) enum Script {
    /// The sites, while they are gathered.
    Gathering(Sites),
    /// The world, from the first line on that asks something of it.
    Running(Running),
}

impl Script {
    ghost use Rattle.recall_text.specs.Fields.{fields};
    ghost use Rattle.recall_text.specs.Steps.{task_of};
    ghost use Rattle.script_core.specs.State.{empty, begun};
    ghost use Rattle.script_core.specs.Script.{Takes, Passes, site_outcome};
    ghost use Rattle.script_core.specs.Memory.{TakesMemory, TaskTakesMemory, SiteTakesMemory, BeginningTakesMemory};
    ghost use Rattle.script_core.specs.Kept.{state_of};

    /// A script of which no line was taken.
    pub(crate) fn new(alloc: Global) -> Script
        ensures { state_of result ≡ empty }
    {
        Script::Gathering(Sites::new(alloc))
    }

    /// Takes a line, without its line ending. Sites number items by a hash with these keys. Only a line that
    /// allocates can end in `Err`; nothing is said of the script then.
    pub(crate) fn take_line(
        &mut self,
        alloc: Global,
        keys: RandomState,
        line: &[u8],
    ) -> Result<Answer, AllocError>
        ensures ok { IfOk result (λ a. Takes (state_of self.old) line.now (answer_of a)
            (state_of self.new)) }
        ensures err { IfErr result (λ _. TakesMemory (state_of self.old) line.now) }
    {
        match Line::read(line) {
            Line::Silent => Ok(Answer::Silent),
            Line::Unreadable => Ok(Answer::bad_line()),
            Line::Site { name, addresses } => self.add_site(alloc, name, addresses),
            Line::Task(task) => self.pass(alloc, keys, task),
        }
    }

    /// Adds a site, while sites are gathered.
    fn add_site(&mut self, alloc: Global, name: &str, addresses: &str) -> Result<Answer, AllocError>
        ensures ok { IfOk result (λ a. (answer_of a, state_of self.new)
            ≡ site_outcome (state_of self.old) name.now (fields addresses.now)) }
        ensures err { IfErr result (λ _. SiteTakesMemory (state_of self.old)) }
    {
        match self {
            Script::Gathering(sites) => add_site(alloc, sites, name, addresses),
            Script::Running(_) => Ok(Answer::late()),
        }
    }

    /// The check of all lines that ask something of the world.
    fn pass(
        &mut self,
        alloc: Global,
        keys: RandomState,
        task: Task<'_>,
    ) -> Result<Answer, AllocError>
        ensures ok { IfOk result (λ a. Passes (begun (state_of self.old)) (task_of task.entry)
            (answer_of a) (state_of self.new)) }
        ensures err { IfErr result (λ _. TaskTakesMemory (state_of self.old) (task_of task.entry)) }
    {
        self.begin(alloc, keys)?;
        match self {
            Script::Gathering(_) => Ok(Answer::no_world()),
            Script::Running(world) => world.answer(alloc, task),
        }
    }

    /// Begins the world, once two sites stand. Only that allocates.
    #[tactic(auto, unfolding(crate::specs::State::begun))]
    fn begin(&mut self, alloc: Global, keys: RandomState) -> Result<(), AllocError>
        ensures ok { OnOk result (state_of self.new ≡ begun (state_of self.old)) }
        ensures err { OnErr result (BeginningTakesMemory (state_of self.old)) }
    {
        match mem::replace(self, Script::new(alloc)) {
            Script::Gathering(sites) => {
                *self = if sites.ready() {
                    Script::Running(begin_world(alloc, keys, sites)?)
                } else {
                    Script::Gathering(sites)
                };
            }
            Script::Running(world) => *self = Script::Running(world),
        }
        Ok(())
    }
}
