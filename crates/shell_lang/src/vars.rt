ghost use Rattle.std.specs.Prelude.{◌≡◌, Some, codes, option_copied, IfOk, OnOk, OnErr};
ghost use Rattle.shell_lang.specs.Answers.{RefusedWhere};
ghost use Rattle.shell_lang.specs.Keyed.{at_name, with_name};
ghost use Rattle.shell_lang.specs.Settings.{AreSettled, Changes};
ghost use Rattle.shell_lang.specs.Known.{defaults, is_illegal, is_unknown, taken_back};

use crate::LangFault;
use crate::known::Known;
use outside::Text;
use std::alloc::{AllocError, Global};
use std::collections::BTreeMap;
use std::marker::Model;

/// The variables that have a value, known ones among them, in the byte order of their names.
#[derive(Debug, Drop)]
pub struct Vars {
    alloc: Global,
    values: BTreeMap<Text, Text>,
    /// The names of the two variables that the shell itself asks for, so that it takes no memory.
    quits: Text,
    input: Text,
}

impl Model for Vars {
    ghost use Rattle.std.specs.Prelude.{◌≡◌, ℕ, List, codes};
    ghost use Rattle.shell_lang.specs.Settings.{AreSettled};

    ghost Value = { List (List ℕ × List ℕ) };

    ghost view = { λ v. v.values.entries };

    ghost invariant = { λ v. (v.quits ≡ codes "on_failure_script_quits")
        × (v.input ≡ codes "input_file") × AreSettled v.values.entries };
}

impl Vars {
    /// The known variables, with their defaults.
    ///
    /// # Errors
    ///
    /// `AllocError` where memory is refused.
    pub fn new(alloc: Global) -> Result<Vars, AllocError>
        ensures { IfOk result (λ vars. vars ≡ defaults) }
    {
        let mut values = BTreeMap::new(alloc);
        put(alloc, &mut values, b"bmc_length", b"10")?;
        put(alloc, &mut values, b"bmc_loopback", b"*")?;
        put(alloc, &mut values, b"default_simulation_steps", b"10")?;
        put(alloc, &mut values, b"default_trace_plugin", b"0")?;
        put(alloc, &mut values, b"on_failure_script_quits", b"0")?;
        put(alloc, &mut values, b"shown_states", b"25")?;
        Ok(Vars {
            alloc,
            values,
            quits: Text::from_slice(alloc, b"on_failure_script_quits")?,
            input: Text::from_slice(alloc, b"input_file")?,
        })
    }

    /// Sets a variable, of any name.
    ///
    /// # Errors
    ///
    /// `BadValue` where the name is that of a known variable that does not take the value,
    /// `NoMemory` where memory is refused; nothing has changed then.
    pub fn set(&mut self, name: &Text, v: &Text) -> Result<(), LangFault>
        ensures ok { OnOk result (self.new ≡ with_name self.old name.now v.now) }
        ensures err { OnErr result (self.new ≡ self.old) }
        ensures illegal { RefusedWhere (is_illegal name.now v.now)
            (LangFault.BadValue name.now) result }
    {
        if is_illegal(name.as_slice(), v.as_slice()) {
            return Err(LangFault::BadValue(name.copy(self.alloc)?));
        }
        put(self.alloc, &mut self.values, name.as_slice(), v.as_slice())?;
        Ok(())
    }

    /// Gives a known variable its default back, and takes the value of any other one away.
    ///
    /// # Errors
    ///
    /// `NoName` where the name is not known and has no value, `NoMemory` where memory is refused;
    /// nothing has changed then.
    pub fn unset(&mut self, name: &Text) -> Result<(), LangFault>
        ensures ok { OnOk result (self.new ≡ taken_back self.old name.now) }
        ensures err { OnErr result (self.new ≡ self.old) }
        ensures unknown { RefusedWhere (is_unknown self.old name.now)
            (LangFault.NoName name.now) result }
    {
        match Known::find(name.as_slice()) {
            Some(known) => match known.default() {
                Some(value) => {
                    put(self.alloc, &mut self.values, name.as_slice(), value)?;
                }
                None => {
                    self.values.remove(name);
                }
            },
            None => {
                if self.values.remove(name).is_none() {
                    return Err(LangFault::NoName(name.copy(self.alloc)?));
                }
            }
        }
        Ok(())
    }

    /// The value of a variable, if it has one.
    pub fn get(&self, name: &Text) -> Option<&Text>
        ensures value { option_copied result ≡ at_name self.now name.now }
        ensures settled { AreSettled self.now }
    {
        self.values.get(name)
    }

    /// The value of `on_failure_script_quits`.
    pub fn on_failure_script_quits(&self) -> Option<&Text>
        ensures { option_copied result ≡ at_name self.now (codes "on_failure_script_quits") }
    {
        self.values.get(&self.quits)
    }

    /// Sets `input_file`, which takes any value.
    ///
    /// # Errors
    ///
    /// `AllocError` where memory is refused; nothing has changed then.
    pub fn set_input_file(&mut self, file: &Text) -> Result<(), AllocError>
        ensures ok { OnOk result (self.new ≡ with_name self.old (codes "input_file") file.now) }
        ensures err { OnErr result (self.new ≡ self.old) }
    {
        put(
            self.alloc,
            &mut self.values,
            self.input.as_slice(),
            file.as_slice(),
        )
    }

    /// The value of `input_file`, if it has one.
    pub fn input_file(&self) -> Option<&Text>
        ensures { option_copied result ≡ at_name self.now (codes "input_file") }
    {
        self.values.get(&self.input)
    }

    /// The names with their values, in the byte order of the names.
    pub fn entries(&self) -> &BTreeMap<Text, Text>
        ensures { result.now.entries ≡ self.now }
    {
        &self.values
    }
}

// Puts a value under a name, which it need not take.
fn put(
    alloc: Global,
    values: &mut BTreeMap<Text, Text>,
    name: &[u8],
    value: &[u8],
) -> Result<(), AllocError>
    ensures ok { OnOk result
        (values.new.entries ≡ with_name values.old.entries name.now value.now) }
    ensures changes { OnOk result
        (Changes values.old.entries values.new.entries name.now (Some value.now)) }
    ensures err { OnErr result (values.new.entries ≡ values.old.entries) }
{
    let value = Text::from_slice(alloc, value)?;
    let name = Text::from_slice(alloc, name)?;
    values.insert(name, value)?;
    Ok(())
}

// Whether a known variable does not take the value.
fn is_illegal(name: &[u8], value: &[u8]) -> bool
    ensures { result ≡ is_illegal name.now value.now }
{
    match Known::find(name) {
        Some(known) => !known.takes(value),
        None => false,
    }
}
