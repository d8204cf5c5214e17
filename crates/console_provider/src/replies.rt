//! What a provider replies to a question.
ghost use Rattle.std.specs.Prelude.{◌≡◌};
ghost use Rattle.fields.specs.Results.{result_map, OrNoMemory};
ghost use Rattle.provider_commands.specs.Reading.{query};
ghost use Rattle.console_provider.specs.Doing.{out_of_memory, replied, reply as replies};
ghost use Rattle.console_provider.specs.Told.{told};

use crate::{Answer, Refusal};
use mapped::{Body, MappedProvider};
use provider::Provider;
use provider_commands::Question;
use std::alloc::Global;
use types::{Digest, Epoch, Height, Item};

/// The item of a height and its digest.
fn item(height: Height, digest: &Digest) -> Item<'_>
    ensures height { result.height ≡ height }
    ensures digest { result.digest.now ≡ digest.now.bytes }
{
    Item {
        height,
        digest: &digest.bytes,
    }
}

/// What the provider replies to a question about an epoch that it knows.
fn answer<B: Body>(
    heap: Global,
    provider: &MappedProvider<'_, B>,
    epoch: Epoch,
    question: &Question,
) -> Result<Answer, Refusal>
    ensures { OrNoMemory out_of_memory (result_map told result) (replied B.meaning provider.now.epochs.sets.now epoch.0 (query question.now)) }
{
    match question {
        Question::Sign { height, digest } => {
            let signature = provider
                .sign(epoch, &item(*height, digest))
                .ok_or(Refusal::NoOwnSigner(epoch))?;
            Ok(Answer::Signed(signature))
        }
        Question::Accepts {
            signer,
            height,
            digest,
            signature,
        } => {
            if provider.accepts(epoch, *signer, &item(*height, digest), signature) {
                Ok(Answer::Accepted)
            } else {
                Ok(Answer::Rejected)
            }
        }
        Question::Assemble(attestations) => {
            let certificate = provider
                .assemble(epoch, attestations)
                .ok_or(Refusal::AssemblyFailed)?;
            Ok(Answer::Assembled(certificate.as_bytes().to_vec(heap)?))
        }
        Question::AcceptsCertificate {
            height,
            digest,
            certificate,
        } => {
            match provider.check(epoch, &item(*height, digest), certificate) {
                Ok(()) => Ok(Answer::Accepted),
                Err(reason) => Ok(Answer::Against(reason)),
            }
        }
    }
}

/// What the provider replies to a question.
pub(crate) fn reply<B: Body>(
    heap: Global,
    provider: &MappedProvider<'_, B>,
    epoch: Epoch,
    question: &Question,
) -> Result<Answer, Refusal>
    ensures { OrNoMemory out_of_memory (result_map told result) (replies B.meaning provider.now.epochs.sets.now epoch.0 (query question.now)) }
{
    if provider.keys(epoch).is_none() {
        return Err(Refusal::UnknownEpoch(epoch));
    }
    answer(heap, provider, epoch, question)
}
