//! An image that a run can't work on, since a standard stream leads to it.
ghost use Rattle.std.specs.Prelude.{◌≡◌, MatchOption, IfSome, Some, false};
ghost use Rattle.filser.specs.Common.{HoldsOfImages, IsApart, IsLed, IsLedBy, SparesErrors, SparesOutput};
ghost use Rattle.filser.specs.Common.{forbids_errors, forbids_output, image_named, new_named};
ghost use Rattle.filser.specs.declared.refusal.Refusal.TheVariants.{Exists, Start};
ghost use Rattle.volume.specs.declared.error.VolumeError.TheVariants.{Device};

use crate::streams::stream_at;
use crate::{Host, HostFault, ImageFault, Refusal, Request};
use volume::VolumeError;

/// An image to which a standard stream leads.
#[derive(Clone, Copy, Debug)]
pub(crate) struct LedImage<'a> {
    /// Its path.
    pub(crate) path: &'a str,
    /// What is printed, if the stream allows that.
    pub(crate) refusal: Refusal,
    /// The stream.
    pub(crate) stream: HostFault,
}

impl LedImage<'_> {
    /// Returns why there is no run on the image.
    pub(crate) fn fault(&self) -> ImageFault
        ensures { result ≡ record { refusal = self.now.refusal; host = Some self.now.stream } }
    {
        ImageFault {
            refusal: self.refusal,
            host: Some(self.stream),
        }
    }
}

/// Returns the image that the request names, if a standard stream leads to it. Of two that are led to it is the one
/// whose stream forbids more: then nothing that is printed or reported of it lands in the other.
pub(crate) fn led_image<'a, H: Host>(host: &H, asked: &Request<'a>) -> Option<LedImage<'a>>
    ensures apart { MatchOption result (IsApart (H.facts host.now) (image_named asked.now)
        × IsApart (H.facts host.now) (new_named asked.now))
        (λ led. IsLed (H.facts host.now) asked.now led.path.now
        (record { refusal = led.refusal; host = Some led.stream })) }
    ensures output { IfSome result (λ led. forbids_output led.stream ≡ false
        → HoldsOfImages asked.now (SparesOutput (H.facts host.now))) }
    ensures errors { IfSome result (λ led. forbids_errors led.stream ≡ false
        → HoldsOfImages asked.now (SparesErrors (H.facts host.now))) }
{
    let Some(new) = led_new(host, asked) else {
        return led_existing(host, asked);
    };
    let Some(existing) = led_existing(host, asked) else {
        return Some(new);
    };
    if existing.stream.covers(&new.stream) {
        Some(existing)
    } else {
        Some(new)
    }
}

/// Returns the image that the request names, of two the existing one, if a standard stream leads to it.
fn led_existing<'a, H: Host>(host: &H, asked: &Request<'a>) -> Option<LedImage<'a>>
    ensures { MatchOption result (IsApart (H.facts host.now) (image_named asked.now))
        (λ led. IsLedBy (H.facts host.now) (image_named asked.now) (Start Device) led.path.now
        (record { refusal = led.refusal; host = Some led.stream })) }
{
    let path = asked.image()?;
    let stream = stream_at(host, path)?;
    Some(LedImage {
        path,
        refusal: Refusal::Start(VolumeError::Device),
        stream,
    })
}

/// Returns the new image of a conversion, if a standard stream leads to it, so that it exists.
fn led_new<'a, H: Host>(host: &H, asked: &Request<'a>) -> Option<LedImage<'a>>
    ensures { MatchOption result (IsApart (H.facts host.now) (new_named asked.now))
        (λ led. IsLedBy (H.facts host.now) (new_named asked.now) Exists led.path.now
        (record { refusal = led.refusal; host = Some led.stream })) }
{
    let path = asked.new_image()?;
    let stream = stream_at(host, path)?;
    Some(LedImage {
        path,
        refusal: Refusal::Exists,
        stream,
    })
}
