// 15, before the reply is looked at; and the settings, which are part of what is held.
ghost use Rattle.std.specs.Prelude.{◌≡◌, ◌<◌};
ghost use Rattle.session.specs.Terms.{kept_of};
ghost use Rattle.session.specs.Sound.{known_rule, is_address, allowed_of, ids_to, file_sound, held_sound, sound_of};

use crate::{Session, Settings};
use bus::Bus;
use counts::ConfigId;
use summary::Summary;

// The house rule stays a number: a setting may hold one that is no rule, and is refused for it (14).
#[tactic(auto, unfolding(crate::specs::Sound::known_rule))]
fn known_rule(rule: u8) -> bool
    ensures { result ≡ known_rule rule }
{
    matches!(rule, 1 | 2)
}

// Even, 10 to EE hex.
#[tactic(auto, unfolding(crate::specs::Sound::is_address))]
fn is_address(address: u8) -> bool
    ensures { result ≡ is_address address }
{
    0x10 <= address && address <= 0xEE && address % 2 == 0
}

impl Settings {
    // Poll limit 1 to 10,000; RESTORE_CFG is none of the six other commands; house rule 1 or 2; a write address.
    #[tactic(auto, unfolding(crate::specs::Sound::all, crate::specs::Sound::setting_tests, crate::specs::Sound::allowed_of))]
    pub fn allowed(self) -> bool
        ensures { result ≡ allowed_of self }
    {
        1 <= self.limit
            && self.limit <= 10000
            && !Bus::reserved(self.restore)
            && known_rule(self.rule)
            && is_address(self.address)
    }

    // How many of the device's places are kept free for field service.
    #[tactic(auto, unfolding(crate::specs::Terms::kept_of))]
    pub(crate) fn kept(self) -> u8
        ensures { result ≡ kept_of self.rule }
    {
        if self.rule == 2 { 2 } else { 0 }
    }
}

// No identifier of the first k is above 15. The list and k stay two, as a summary and `ids_to` have them.
fn ids_sound(ids: [ConfigId; 8], k: u8) -> bool
    requires { k < 9 }
    ensures { result ≡ ids_to ids k }
{
    ids[..k as usize].iter().all(|id| id.0 <= 15)
}

// What a beginning asks of a summary, and a reply of the one that is held.
#[tactic(auto, unfolding(crate::specs::Sound::all, crate::specs::Sound::file_sound, crate::specs::Sound::file_tests))]
pub(crate) fn file_sound(file: Summary) -> bool
    ensures { result ≡ file_sound file }
{
    let k = file.configs;
    1 <= k && k <= 8 && file.lines == file.kind.lines(k) && ids_sound(file.ids, k)
}

impl Session {
    #[tactic(auto, unfolding(crate::specs::Sound::all, crate::specs::Sound::held_sound, crate::specs::Sound::held_tests, crate::specs::Sound::most_sent))]
    fn held_sound(self) -> bool
        ensures { result ≡ held_sound self }
    {
        let lines = self.file.lines;
        let configs = self.file.configs;
        let limit = self.settings.limit;
        let most_sent = lines as u64 + limit as u64 + 3 * configs as u64 + 9;
        5 <= self.position.line.0
            && self.position.line.0 <= lines
            && self.position.config.0 < configs
            && self.position.polls < limit
            && self.sent as u64 <= most_sent
    }

    // The conditions of 15 that are looked at before the reply.
    #[tactic(auto, unfolding(crate::specs::Sound::all, crate::specs::Sound::sound_of, crate::specs::Sound::state_tests))]
    pub(crate) fn sound(self) -> bool
        ensures { result ≡ sound_of self }
    {
        self.settings.allowed() && file_sound(self.file) && self.held_sound()
    }
}
