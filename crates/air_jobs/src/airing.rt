//! The groups of a store as lines (profile).
ghost use Rattle.std.specs.Prelude.{codes, ◌++◌};
ghost use Rattle.carousel.specs.Carousel.{switched_on};
ghost use Rattle.uecp_text.specs.Written.{Adds};
ghost use Rattle.air_jobs.specs.Airing.{air_words, air_line, air_lines};

use carousel::Carousel;
use output_forms::Form;
use rds_groups::Group;
use rds_store::RdsStore;
use uecp_text::Output;

/// Adds the lines of the first so many groups that a carousel sends of the store. The store keeps its groups.
pub(crate) fn put_air(form: Form, groups: u32, store: &RdsStore, output: &mut Output)
    ensures { Adds output.old output.new (air_lines form groups store.now switched_on) }
{
    let mut carousel = Carousel::new();
    let mut taken = 0;
    for _group in 0..groups {
        let next = carousel.next_group_behind(store, taken);
        put_group(form, &next.group, output);
        if next.is_queued {
            taken += 1;
        }
    }
}

/// Adds the line of a group.
fn put_group(form: Form, group: &Group, output: &mut Output)
    ensures { Adds output.old output.new (air_line form group.now) }
{
    match form {
        Form::Lines | Form::Words(_) => {
            put_words(group, output);
            output.end();
        }
        Form::Json => {
            output.text("{\"format\":1,\"kind\":\"air\",\"group\":\"");
            put_words(group, output);
            output.text("\"}\n");
        }
    }
}

/// Adds the words of a group.
#[tactic(auto, unfolding(crate::specs::Airing::air_words))]
fn put_words(group: &Group, output: &mut Output)
    ensures { Adds output.old output.new (air_words group.now) }
{
    output.digits(&group.block1.to_be_bytes());
    output.number(group.block2);
    output.number(group.block3);
    output.number(group.block4);
}
