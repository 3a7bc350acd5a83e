//! The topic of the model.
ghost use Rattle.std.specs.Prelude.{◌≡◌, ◌≤◌, length, option_copied, None};
ghost use Rattle.std.specs.Option.{option_or};
ghost use Rattle.shell_world.specs.Processes.{Becomes, MayLack};
ghost use Rattle.shell_world.specs.Steps.{WithFile};
ghost use Rattle.shell_world.specs.Outsides.{Does};
ghost use Rattle.shell_model.specs.ModelCommands.{DoesModel, DoesReadModel, ReadsBy, ReadsModel, ReadsNamed, TakesText, input_file, model_limit, model_refusal, named_by, with_model, with_read};

use bool_replay::{BoolModel, ModelFault};
use cmd_table::{Given, OptFault, commands};
use outside::{Text, Words};
use shell_world::{
    End, Listed, Outside, Phase, Refusal, Row, State, Work, copy_of, read_file, read_row, refuse,
    refuse_file,
};
use std::alloc::{AllocError, Global};

/// The commands of the model.
#[derive(Clone, Copy, Debug, PartialEq, Eq)]
pub enum ModelCommand {
    ReadModel,
}

/// All of them.
pub const MODEL_COMMANDS: [ModelCommand; 1] = [ModelCommand::ReadModel];

impl Listed for ModelCommand {
    ghost use Rattle.shell_model.specs.ModelCommands.{model_help, model_word};

    ghost word = { model_word };

    ghost help = { model_help };

    fn word(self) -> &'static [u8] {
        match self {
            ModelCommand::ReadModel => READ_MODEL.word,
        }
    }

    fn help(self) -> &'static [u8] {
        match self {
            ModelCommand::ReadModel => READ_MODEL.help,
        }
    }
}

/// `read_model [-i file]`
pub const READ_MODEL: Row<1> = Row {
    word: b"read_model",
    help: b"read_model [-i file]",
    table: commands::READ_MODEL,
    needs: Phase::Start,
};

// The place of `-i` among its options.
const INPUT: usize = 0;

/// A model has at most so many bytes.
pub(crate) const MODEL_LIMIT: usize = 4_194_304;

/// The refusal of a text that is no model.
pub(crate) fn model_refusal(fault: ModelFault) -> Refusal
    ensures { result ≡ model_refusal fault }
{
    match fault {
        ModelFault::Text(fault) => Refusal::Model(fault),
        ModelFault::NotBuilt => Refusal::NotBuilt,
        ModelFault::NoMemory => Refusal::NoMemory,
    }
}

/// Keeps a model that was read.
pub(crate) fn take_model(alloc: Global, state: &mut State, model: BoolModel)
    ensures { state.new ≡ with_model model state.old }
{
    state.model = Some(model);
    state.done = Phase::Read;
    state.work = Work::none(alloc);
}

/// Keeps a model that was read, and names its file.
fn keep_read<W: Outside>(
    alloc: Global,
    state: &mut State,
    world: &mut W,
    file: &Text,
    model: BoolModel,
) -> End
    ensures { Does W.told (MayLack (Becomes (with_read file.now model)))
        state.old world.old result state.new world.new }
{
    match state.vars.set_input_file(file) {
        Ok(()) => {
            take_model(alloc, state, model);
            End::Went
        }
        Err(AllocError) => refuse(state, world, Refusal::NoMemory),
    }
}

/// Keeps the model that a text is, or refuses it.
fn take_text<W: Outside>(
    alloc: Global,
    state: &mut State,
    world: &mut W,
    file: &Text,
    text: &[u8],
) -> End
    requires { length text.now ≤ 4194304 }
    ensures { Does W.told (TakesText file.now text.now)
        state.old world.old result state.new world.new }
{
    match BoolModel::read(alloc, text) {
        Ok(model) => keep_read(alloc, state, world, file, model),
        Err(fault) => refuse(state, world, model_refusal(fault)),
    }
}

/// Reads the model of a file.
fn read_file_as_model<W: Outside>(
    alloc: Global,
    state: &mut State,
    world: &mut W,
    file: &Text,
) -> End
    ensures { Does W.told (WithFile model_limit file.now (TakesText file.now))
        state.old world.old result state.new world.new }
{
    match read_file(alloc, world, MODEL_LIMIT, file) {
        Ok(text) => take_text(alloc, state, world, file, text.as_slice()),
        Err(fault) => refuse_file(alloc, state, world, MODEL_LIMIT, file, fault),
    }
}

/// Reads the model of a file, unless there is one.
fn read_unless_there<W: Outside>(
    alloc: Global,
    state: &mut State,
    world: &mut W,
    file: &Text,
) -> End
    ensures { Does W.told (ReadsModel file.now state.old.model)
        state.old world.old result state.new world.new }
{
    match &state.model {
        Some(_) => refuse(state, world, Refusal::ModelIsThere),
        None => read_file_as_model(alloc, state, world, file),
    }
}

/// Says that no file was named.
fn refuse_unnamed<W: Outside>(alloc: Global, state: &State, world: &mut W) -> End
    ensures { Does W.told (ReadsNamed None state.now)
        state.now world.old result state.now world.new }
{
    match Text::from_slice(alloc, b"-i") {
        Ok(option) => refuse(state, world, Refusal::Options(OptFault::Required(option))),
        Err(AllocError) => refuse(state, world, Refusal::NoMemory),
    }
}

/// The file of the option, or else that of the variable.
fn named_file<'a>(given: &'a Given, state: &'a State) -> Option<&'a Text>
    ensures { option_copied result ≡ option_or (named_by given.now) (input_file state.now) }
{
    match given.values.get(INPUT) {
        Some(file) => Some(file),
        None => state.vars.input_file(),
    }
}

/// Reads the model of the file that is named.
fn read_named<W: Outside>(
    alloc: Global,
    state: &mut State,
    world: &mut W,
    file: Option<Text>,
) -> End
    ensures { Does W.told (ReadsNamed file state.old)
        state.old world.old result state.new world.new }
{
    match file {
        Some(file) => read_unless_there(alloc, state, world, &file),
        None => refuse_unnamed(alloc, state, world),
    }
}

/// Reads the model, by the options.
fn read_by<W: Outside>(alloc: Global, state: &mut State, world: &mut W, given: &Given) -> End
    ensures { Does W.told (MayLack (ReadsBy (named_by given.now)))
        state.old world.old result state.new world.new }
{
    match copy_of(alloc, named_file(given, state)) {
        Ok(file) => read_named(alloc, state, world, file),
        Err(AllocError) => refuse(state, world, Refusal::NoMemory),
    }
}

// `read_model [-i file]`
fn do_read_model<W: Outside>(alloc: Global, state: &mut State, world: &mut W, words: &Words) -> End
    ensures { Does W.told (DoesReadModel words.now)
        state.old world.old result state.new world.new }
{
    match read_row(alloc, state, &READ_MODEL, words) {
        Ok(given) => read_by(alloc, state, world, &given),
        Err(refusal) => refuse(state, world, refusal),
    }
}

/// Does a command of the model. The remembered lines stay as they were.
pub fn do_model<W: Outside>(
    alloc: Global,
    state: &mut State,
    world: &mut W,
    command: ModelCommand,
    words: &Words,
) -> End
    ensures does { Does W.told (DoesModel command words.now)
        state.old world.old result state.new world.new }
    ensures past { state.new.past ≡ state.old.past }
{
    match command {
        ModelCommand::ReadModel => do_read_model(alloc, state, world, words),
    }
}
