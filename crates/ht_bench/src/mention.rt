//! Names that lines mention, and their numbers.
ghost use Rattle.std.specs.Prelude.{◌≡◌, [], ◌∷◌, map, All, IfOk, OnOk, IfErr, OnErr};
ghost use Rattle.ht_net.specs.Build.Draft.{IsDraft, IsName, draft_name};
ghost use Rattle.ht_net.specs.Build.Names.{IsNameAt};
ghost use Rattle.ht_statement.specs.StatementOf.{texts_of};
ghost use Rattle.ht_bench.specs.Drafts.{Mentions, MentionsFree, RefusesMentions, RefusesDriver};

use crate::add_error::AddError;
use ht_items::Items;
use ht_net::{Builder, NameId};
use std::alloc::Global;

/// The number of a name, which is mentioned from here on.
#[tactic(auto, using(crate::proofs::MentionLaws::mentioning))]
pub(crate) fn mention(builder: &mut Builder, name: &[u8]) -> Result<NameId, AddError>
    ensures number { IfOk result (λ id. IsNameAt builder.new.names id.0 name.now) }
    ensures mentions { OnOk result (Mentions builder.old (name.now ∷ []) builder.new) }
    ensures refusal { IfErr result (RefusesMentions builder.old (name.now ∷ [])) }
    ensures draft { OnErr result (IsDraft builder.old) }
{
    Ok(builder.net(name)?)
}

/// The numbers of names, which are mentioned from here on.
#[tactic(auto, using(crate::proofs::MentionLaws::mentioning))]
pub(crate) fn mention_all(
    alloc: Global,
    builder: &mut Builder,
    names: &[&[u8]],
) -> Result<Items<NameId>, AddError>
    requires { IsDraft builder.old }
    ensures known { IfOk result (λ ids. All (IsName builder.new) ids) }
    ensures numbers { IfOk result
        (λ ids. map (draft_name builder.new) ids ≡ texts_of names.now) }
    ensures mentions { OnOk result
        (Mentions builder.old (texts_of names.now) builder.new) }
    ensures refusal { IfErr result (RefusesMentions builder.old (texts_of names.now)) }
{
    let mut ids = Items::new(alloc);
    for name in names {
        let id = mention(builder, name)?;
        ids.push(id)?;
    }
    Ok(ids)
}

/// The number of a net that a line drives, where no earlier line drives it.
#[tactic(auto, using(crate::proofs::MentionLaws::mentioning))]
pub(crate) fn mention_driven(
    alloc: Global,
    builder: &mut Builder,
    name: &[u8],
) -> Result<NameId, AddError>
    ensures found { IfOk result (λ id.
        MentionsFree builder.old (name.now ∷ []) name.now id builder.new) }
    ensures refusal { IfErr result (RefusesDriver builder.old name.now) }
{
    let id = mention(builder, name)?;
    if builder.driven(id) {
        return Err(AddError::SecondDriver(Items::from_slice(alloc, name)?));
    }
    Ok(id)
}
