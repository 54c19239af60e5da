//! The settings of a chain.
ghost use Rattle.std.specs.Prelude.{◌≡◌};

use crate::settings::Settings;
use siit_rules::Family;
use std::marker::Model;

/// The settings of a chain: the family of its left link, and those of its devices from left to right.
#[derive(Drop)]
pub struct ChainSettings {
    left: Family,
    devices: Vec<Settings>,
}

impl Model for ChainSettings {
    ghost use Rattle.siit_roles.specs.Chain.{Chain};

    ghost Value = { Chain };

    ghost view = { λ c. record { left = c.left; devices = c.devices.items } };
}

impl ChainSettings {
    /// The chain of this left family and these devices, from left to right. It takes no memory.
    pub fn new(left: Family, devices: Vec<Settings>) -> ChainSettings
        ensures left { result.left ≡ left }
        ensures devices { result.devices ≡ devices.items }
    {
        ChainSettings { left, devices }
    }

    /// The family of the left link.
    pub fn left(&self) -> Family
        ensures { result ≡ self.now.left }
    {
        self.left
    }

    /// The devices, from left to right.
    pub fn devices(&self) -> &[Settings]
        ensures { result.now ≡ self.now.devices }
    {
        &self.devices
    }

    /// The family of the left link, and the devices from left to right, given back as they were kept.
    pub fn into_parts(self) -> (Family, Vec<Settings>)
        ensures left { result.0 ≡ self.left }
        ensures devices { result.1.items ≡ self.devices }
    {
        (self.left, self.devices)
    }
}
