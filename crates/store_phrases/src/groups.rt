//! The groups that wait, element by element (profile).
ghost use Rattle.std.specs.Prelude.{◌≡◌, true, false, map, flat_map, All};
ghost use Rattle.rds_store.specs.Value.{IsGroup};
ghost use Rattle.uecp_text.specs.Written.{Adds};
ghost use Rattle.store_phrases.specs.Said.{rule_bits, group_said, groups_said};

use crate::form::ElementForm;
use rds_store::Group;
use uecp_elements::Element;

/// The bits of a buffer rule: 10 adds, 00 replaces.
pub(crate) fn rule_bits(adds: bool) -> u8
    ensures { result ≡ rule_bits adds }
{
    if adds { 0x40 } else { 0x00 }
}

/// The elements of the groups: the first replaces those that wait, and each other is added.
pub(crate) fn put_groups<F: ElementForm>(form: &F, groups: &[Group], output: &mut F::Out)
    requires { All IsGroup groups.now }
    ensures { Adds (F.kept output.old) (F.kept output.new) (flat_map (F.bytes form.now) (groups_said groups.now)) }
{
    if let Some((first, others)) = groups.split_first() {
        put_group(form, false, first, output);
        put_added(form, others, output);
    }
}

/// The elements of groups that are each added.
fn put_added<F: ElementForm>(form: &F, groups: &[Group], output: &mut F::Out)
    requires { All IsGroup groups.now }
    ensures { Adds (F.kept output.old) (F.kept output.new)
        (flat_map (F.bytes form.now) (map (group_said true) groups.now)) }
{
    for group in groups {
        put_group(form, true, group, output);
    }
}

/// The element of a group.
fn put_group<F: ElementForm>(form: &F, adds: bool, group: &Group, output: &mut F::Out)
    requires { IsGroup group.now }
    ensures { Adds (F.kept output.old) (F.kept output.new) (F.bytes form.now (group_said adds group.now)) }
{
    let element = Element::Group {
        kind: group.kind,
        mode: rule_bits(adds) + group.bits,
        block3: group.block3,
        block4: group.block4,
    };
    form.put(&element, output);
}
