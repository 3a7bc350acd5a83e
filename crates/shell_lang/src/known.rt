ghost use Rattle.std.specs.Prelude.{◌≡◌, ◌<◌, ◌^◌, option_map};
ghost use Rattle.shell_lang.specs.Known.{in_range, is_loop_choice};

use outside::read_number;

// The variables that the shell knows.
#[derive(Clone, Copy, Debug)]
pub enum Known {
    Length,
    Loopback,
    Steps,
    Plugin,
    Shown,
    Budget,
    Quits,
    Input,
}

impl Known {
    ghost use Rattle.shell_lang.specs.Known.{known_of, default_of, takes};

    // The known variable of this name.
    pub fn find(name: &[u8]) -> Option<Known>
        ensures { result ≡ known_of name.now }
    {
        if name == b"bmc_length".as_slice() {
            Some(Known::Length)
        } else if name == b"bmc_loopback".as_slice() {
            Some(Known::Loopback)
        } else if name == b"default_simulation_steps".as_slice() {
            Some(Known::Steps)
        } else if name == b"default_trace_plugin".as_slice() {
            Some(Known::Plugin)
        } else if name == b"shown_states".as_slice() {
            Some(Known::Shown)
        } else if name == b"conflict_budget".as_slice() {
            Some(Known::Budget)
        } else if name == b"on_failure_script_quits".as_slice() {
            Some(Known::Quits)
        } else if name == b"input_file".as_slice() {
            Some(Known::Input)
        } else {
            None
        }
    }

    // The value that the variable has as long as it is not set.
    pub fn default(self) -> Option<&'static [u8]>
        ensures { option_map (λ value. value.now) result ≡ default_of self }
    {
        match self {
            Known::Length | Known::Steps => Some(b"10"),
            Known::Loopback => Some(b"*"),
            Known::Plugin | Known::Quits => Some(b"0"),
            Known::Shown => Some(b"25"),
            Known::Budget | Known::Input => None,
        }
    }

    // Whether the variable takes the value.
    pub fn takes(self, value: &[u8]) -> bool
        ensures { result ≡ takes self value.now }
    {
        match self {
            Known::Length => in_range(0, 10_000, value),
            Known::Loopback => is_loop_choice(value),
            Known::Steps => in_range(1, 10_000, value),
            Known::Plugin => in_range(0, 3, value),
            Known::Shown => in_range(1, 1_000, value),
            Known::Budget => in_range(1, 9_223_372_036_854_775_807, value),
            Known::Quits => value.is_empty() || in_range(0, 1, value),
            Known::Input => true,
        }
    }
}

// Whether the text is a number from `least` to `most`.
fn in_range(least: u64, most: u64, text: &[u8]) -> bool
    ensures { result ≡ in_range least most text.now }
{
    match read_number(text) {
        Some(number) => least <= number && number <= most,
        None => false,
    }
}

// Whether the text is a loop choice: `X`, `*`, a number, or `-` and a number from 1.
fn is_loop_choice(text: &[u8]) -> bool
    ensures { result ≡ is_loop_choice text.now }
{
    match text {
        [] => false,
        [b'-', rest @ ..] => in_range(1, u64::from(u32::MAX), rest),
        _ => text == b"X".as_slice()
            || text == b"*".as_slice()
            || in_range(0, u64::from(u32::MAX), text),
    }
}
