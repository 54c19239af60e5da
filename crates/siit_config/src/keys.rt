//! The keys of a table, read one by one.
ghost use Rattle.std.specs.Prelude.{◌≡◌, ◌≤◌, IfOk, None, Some, Ok, MatchResult, length, option_copied, option_map};
ghost use Rattle.toml.specs.Data.{as_str, get_member};
ghost use Rattle.toml.specs.View.{table_view, view};
ghost use Rattle.siit_config.specs.Faults.{Gives, Tells, fault_of, or_fault, missing, wrong_kind, bad_value};
ghost use Rattle.siit_config.specs.Keys.{flag_or, key, number_or};

use crate::fault::ConfigFault;
use arrayvec::ArrayString;
use toml::{Table, Value};

/// The table of a device, or of the top level, which is device 0.
#[derive(Clone, Copy)]
pub(crate) struct Keys<'a> {
    pub device: u8,
    pub table: &'a Table,
}

impl<'a> Keys<'a> {
    /// The fault that a key isn't there.
    pub(crate) fn missing(&self, name: &str) -> ConfigFault
        requires { length name.now ≤ 64 }
        ensures { fault_of result ≡ Some (missing self.now.device name.now) }
    {
        ConfigFault::Missing {
            device: self.device,
            key: key_text(name),
        }
    }

    /// The fault that a key's value is of another TOML type.
    pub(crate) fn wrong_kind(&self, name: &str) -> ConfigFault
        requires { length name.now ≤ 64 }
        ensures { fault_of result ≡ Some (wrong_kind self.now.device name.now) }
    {
        ConfigFault::WrongKind {
            device: self.device,
            key: key_text(name),
        }
    }

    /// The fault that a key's value isn't accepted.
    pub(crate) fn bad_value(&self, name: &str) -> ConfigFault
        requires { length name.now ≤ 64 }
        ensures { fault_of result ≡ Some (bad_value self.now.device name.now) }
    {
        ConfigFault::BadValue {
            device: self.device,
            key: key_text(name),
        }
    }

    /// The value at a key.
    pub(crate) fn value(&self, name: &str) -> Option<&'a Value>
        ensures { option_map (λ v. view v.now) result ≡ get_member name.now (table_view self.now.table.now) }
    {
        self.table.get(name)
    }

    /// The text at a key that must be there.
    pub(crate) fn text(&self, name: &str) -> Result<&'a str, ConfigFault>
        requires { length name.now ≤ 64 }
        ensures { let told = key self.now.device (table_view self.now.table.now) as_str (λ t. Some t) None name.now in
            MatchResult result (λ t. told ≡ Ok t.now) (λ e. Tells e told) }
    {
        let Some(value) = self.value(name) else {
            return Err(self.missing(name));
        };
        match value.as_str() {
            Some(text) => Ok(text),
            None => Err(self.wrong_kind(name)),
        }
    }

    /// The text at a key, if the key is there.
    pub(crate) fn optional_text(&self, name: &str) -> Result<Option<&'a str>, ConfigFault>
        requires { length name.now ≤ 64 }
        ensures { let told = key self.now.device (table_view self.now.table.now) as_str (λ t. Some (Some t)) (Some None) name.now in
            MatchResult result (λ t. told ≡ Ok (option_copied t)) (λ e. Tells e told) }
    {
        let Some(value) = self.value(name) else {
            return Ok(None);
        };
        match value.as_str() {
            Some(text) => Ok(Some(text)),
            None => Err(self.wrong_kind(name)),
        }
    }

    /// A number from `low` to 65535.
    pub(crate) fn number(&self, name: &str, default: u16, low: u16) -> Result<u16, ConfigFault>
        requires short { length name.now ≤ 64 }
        requires default { low ≤ default }
        ensures told { Gives (number_or self.now.device (table_view self.now.table.now) default low 65535 name.now) result }
        ensures bound { IfOk result (λ n. low ≤ n) }
    {
        let Some(value) = self.value(name) else {
            return Ok(default);
        };
        let Some(number) = value.as_integer() else {
            return Err(self.wrong_kind(name));
        };
        match u16::try_from(number) {
            Ok(number) if low <= number => Ok(number),
            _ => Err(self.bad_value(name)),
        }
    }

    /// A boolean.
    pub(crate) fn flag(&self, name: &str, default: bool) -> Result<bool, ConfigFault>
        requires { length name.now ≤ 64 }
        ensures { Gives (flag_or self.now.device (table_view self.now.table.now) default name.now) result }
    {
        let Some(value) = self.value(name) else {
            return Ok(default);
        };
        match value.as_bool() {
            Some(flag) => Ok(flag),
            None => Err(self.wrong_kind(name)),
        }
    }

    /// The value that a key's value stands for, if it is accepted.
    pub(crate) fn accepted<X>(&self, name: &str, value: Option<X>) -> Result<X, ConfigFault>
        requires { length name.now ≤ 64 }
        ensures { Gives (or_fault (bad_value self.now.device name.now) value) result }
    {
        match value {
            Some(value) => Ok(value),
            None => Err(self.bad_value(name)),
        }
    }
}

/// The text of a key's name.
pub(crate) fn key_text(name: &str) -> ArrayString<64>
    requires { length name.now ≤ 64 }
    ensures { result.bytes ≡ name.now }
{
    let mut text = ArrayString::new();
    text.push_str(name);
    text
}
