//! What comes of a packet that a rule drops: its answer, or nothing (RFC 1122 section 3.2.2, RFC 4443 section 2.4).
ghost use Rattle.siit_device.specs.Answered.{is_answered};
ghost use Rattle.siit_arrival6.specs.Arrived.{HasWalk};
ghost use Rattle.siit_chain.specs.Outcome.{dropped};
ghost use Rattle.siit_chain.specs.Verdicts.{Means};
ghost use Rattle.siit_device.specs.Answers as model;
ghost use Rattle.siit_device.specs.Answers.{sent_back4, sent_back6};
ghost use Rattle.siit_device.specs.Arrival4.{growth4};
ghost use Rattle.siit_device.specs.Outcome.{segments_in};
ghost use Rattle.siit_engine.specs.Verdicts.{IsSilent};
ghost use Rattle.siit_model.specs.Ipv4.{ipv4_fields};
ghost use Rattle.siit_roles.specs.Limits.{IsWithinLimits};
ghost use Rattle.siit_v6to4.specs.To4.{walk_in};
ghost use Rattle.siit_views.specs.Headers.{HasLengths4};
ghost use Rattle.std.specs.Prelude.{◌≡◌, ◌≤◌, ◌+◌, true, not, IfSome, IsSome};

use siit_arrival6::Refused6;
use siit_chain::Verdict;
use siit_errors::{answer4, answer6};
use siit_roles::Settings;
use siit_rules::{Answer, Rule};
use siit_views::{Ipv4Header, PacketBuf};

/// The growth of a packet that becomes an IPv6 packet: by the length of its header, and of a Fragment header.
const HEADER_GROWTH: u32 = 20;

const FRAGMENT_GROWTH: u32 = 28;

/// The least MTU of an IPv6 link (RFC 8200 section 5).
const LEAST_MTU6: u32 = 1280;

/// Drops an IPv4 packet by a rule. The answer, where there is one, takes the packet's place.
pub(crate) fn refuse4(settings: &Settings, buf: &mut PacketBuf, rule: Rule) -> Verdict
    requires answerable { is_answered rule ≡ true → HasLengths4 buf.old.bytes }
    requires limits { IsWithinLimits settings.now }
    requires room { 96 ≤ buf.old.front }
    ensures outcome { Means result buf.new.bytes (dropped rule (sent_back4 settings.now rule buf.old.bytes)) }
    ensures kept { IsSilent result → buf.new ≡ buf.old }
    ensures front { buf.old.front ≤ buf.new.front + 96 }
{
    if is_silent(rule) {
        return Verdict::Dropped {
            rule,
            answered: false,
        };
    }
    let told = told_to_4(settings, rule, &Ipv4Header::new(buf.bytes()));
    let answered = answer4(buf, rule, settings.address4, told);
    Verdict::Dropped { rule, answered }
}

/// Drops an IPv6 packet by a rule. The answer, where there is one, takes the packet's place.
pub(crate) fn refuse6(settings: &Settings, buf: &mut PacketBuf, refused: Refused6) -> Verdict
    requires walked { IfSome refused.walk (HasWalk buf.old.bytes) }
    requires answerable { is_answered refused.rule ≡ true → IsSome refused.walk }
    requires room { 96 ≤ buf.old.front }
    ensures outcome { Means result buf.new.bytes (dropped refused.rule (sent_back6 settings.now refused.rule (segments_in (walk_in buf.old.bytes)) buf.old.bytes)) }
    ensures kept { IsSilent result → buf.new ≡ buf.old }
    ensures front { buf.old.front ≤ buf.new.front + 96 }
{
    let rule = refused.rule;
    let answered = match refused.walk {
        Some(walk) => {
            let told = told_to_6(settings, rule, walk.segments);
            answer6(buf, &walk, rule, settings.address6, told)
        }
        None => false,
    };
    Verdict::Dropped { rule, answered }
}

/// Whether a rule has no answer.
fn is_silent(rule: Rule) -> bool
    ensures { result ≡ not (is_answered rule) }
{
    matches!(rule.answer(), Answer::Silent)
}

/// The number that the answer to an IPv4 packet tells: an MTU that would have done (RFC 1191 section 4), less what the
/// packet grows by, or 0.
fn told_to_4(settings: &Settings, rule: Rule, header: &Ipv4Header<'_>) -> u32
    requires limits { IsWithinLimits settings.now }
    ensures { result ≡ model.told_to_4 settings.now rule (ipv4_fields header.now) }
{
    match rule {
        Rule::TooBig4 => u32::from(settings.mtu6) - growth(header),
        _ => 0,
    }
}

/// How many bytes an IPv4 packet gains on its way to IPv6.
fn growth(header: &Ipv4Header<'_>) -> u32
    ensures { result ≡ growth4 (ipv4_fields header.now) }
{
    let is_whole = header.offset() == 0 && !header.mf();
    if is_whole {
        HEADER_GROWTH
    } else {
        FRAGMENT_GROWTH
    }
}

/// The number that the answer to an IPv6 packet tells: an MTU that would have done (RFC 4443 section 3.2), the place of
/// a wrong Segments Left (RFC 4443 section 3.4), or 0.
fn told_to_6(settings: &Settings, rule: Rule, segments: Option<u32>) -> u32
    ensures { result ≡ model.told_to_6 settings.now rule segments }
{
    match rule {
        Rule::TooBig6 => LEAST_MTU6.max(u32::from(settings.mtu4) + HEADER_GROWTH),
        Rule::SegmentsLeft6 => segments.unwrap_or(0),
        _ => 0,
    }
}
