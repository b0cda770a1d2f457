//! The variables that an event sets.

ghost use Rattle.std.specs.Prelude.{◌≡◌, [], ◌∷◌};
ghost use Rattle.dbg_base.specs.Firing.{with_set};
ghost use Rattle.event_rows.specs.Settings.{new_values, with_old_values};

use local_eval::Env;

/// A variable that is set, with its old value and its new one.
#[derive(Clone, Copy, Default, PartialEq, Eq)]
pub struct Setting {
    pub variable: u32,
    pub old: i64,
    pub new: i64,
}

// Sets the variable to this value, if the variable exists.
fn put(env: &mut Env, variable: u32, value: i64)
    ensures { env.new ≡ with_set env.old ((variable, value) ∷ []) }
{
    if (variable as usize) < env.len() {
        env.set(variable, value);
    }
}

// Sets the variables to their new values, in order.
pub(crate) fn put_new(env: &mut Env, settings: &[Setting])
    ensures { env.new ≡ with_set env.old (new_values settings.now) }
{
    for setting in settings {
        put(env, setting.variable, setting.new);
    }
}

// Sets the variables to their old values, from the last setting to the first.
pub(crate) fn put_old(env: &mut Env, settings: &[Setting])
    ensures { env.new ≡ with_old_values env.old settings.now }
{
    for index in (0..settings.len()).rev() {
        let setting = settings[index];
        put(env, setting.variable, setting.old);
    }
}
