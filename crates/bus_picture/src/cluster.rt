//! What is drawn of a box of a row: of one transmission, or of several neighbours of less than a pixel.
ghost use Rattle.std.specs.Prelude.{◌≡◌, ◌<◌, ◌≤◌, ◌^◌};
ghost use Rattle.bus_outer.specs.Texts.{Adds};
ghost use Rattle.bus_pen.specs.Scales.{IsScale};
ghost use Rattle.bus_picture.specs.Boxes as definition;
ghost use Rattle.bus_picture.specs.Boxes.{grown, one};
ghost use Rattle.bus_picture.specs.inside.Working.{IsCluster};

use crate::measures::{BOX_HEIGHT, LEAST_HEIGHT, NARROW};
use bus_outer::{Sink, TextBuffer};
use bus_pen::Scale;
use bus_pen::measures::PIXEL;
use bus_shapes::{Sent, put_garbled, put_sent};

/// The transmissions that share a box. All moments are bit times from the settled start.
#[derive(Clone, Copy, Debug, PartialEq, Eq)]
pub struct Cluster {
    /// Its first transmission.
    pub first: Sent,
    /// How many it has.
    pub count: u64,
    /// The moment at which all have ended.
    pub end: u64,
    /// For how many bit times one of them is sent.
    pub busy: u64,
}

/// Whether a transmission takes less than a pixel.
pub(crate) fn is_thin(scale: &Scale, sent: &Sent) -> bool
    requires { IsScale scale.now }
    ensures { result ≡ definition.is_thin scale.now sent.now }
{
    scale.place(sent.end) < scale.place(sent.moment) + PIXEL
}

/// Whether a transmission takes less than six pixels.
pub(crate) fn is_narrow(scale: &Scale, sent: &Sent) -> bool
    requires scale { IsScale scale.now }
    requires order { sent.now.moment ≤ sent.now.end }
    ensures { result ≡ definition.is_narrow scale.now sent.now }
{
    scale.extent(sent.moment, sent.end) < NARROW
}

/// The stretch of six pixels in which a transmission begins.
fn bucket(scale: &Scale, sent: &Sent) -> u64
    requires { IsScale scale.now }
    ensures { result ≡ definition.bucket scale.now sent.now }
{
    scale.place(sent.moment) / NARROW
}

/// Whether a transmission begins less than a pixel behind a moment.
fn is_close(scale: &Scale, end: u64, sent: &Sent) -> bool
    requires { IsScale scale.now }
    ensures { result ≡ definition.is_close scale.now end sent.now }
{
    scale.place(sent.moment) < scale.place(end) + PIXEL
}

/// Whether the next transmission shares a box.
pub(crate) fn joins(scale: &Scale, cluster: &Cluster, next: &Sent) -> bool
    requires { IsScale scale.now }
    ensures { result ≡ definition.joins scale.now cluster.now next.now }
{
    is_thin(scale, &cluster.first)
        && is_thin(scale, next)
        && bucket(scale, &cluster.first) == bucket(scale, next)
        && is_close(scale, cluster.end, next)
}

impl Cluster {
    /// A box of one transmission.
    pub fn one(sent: Sent) -> Cluster
        ensures { result ≡ one sent }
    {
        Cluster {
            first: sent,
            count: 1,
            end: sent.end,
            busy: sent.end.saturating_sub(sent.moment),
        }
    }

    /// A box with one more.
    pub fn grown(self, sent: &Sent) -> Cluster
        requires few { self.count < 2 ^ 63 }
        requires cluster { IsCluster self }
        ensures { result ≡ grown self sent.now }
    {
        Cluster {
            first: self.first,
            count: self.count + 1,
            end: self.end.max(sent.end),
            busy: self.busy + sent.end.saturating_sub(self.end.max(sent.moment)),
        }
    }
}

/// How many transmissions a box has, and from when to when.
fn put_many<K: Sink>(text: &mut TextBuffer, sink: &mut K, cluster: &Cluster)
    ensures { Adds K.held K.faults sink.old sink.new text.old text.new (definition.many_words cluster.now) }
{
    text.put_number(sink, cluster.count);
    text.put(sink, b" transmissions, moments ");
    text.put_number(sink, cluster.first.moment);
    text.put(sink, b" to ");
    text.put_number(sink, cluster.end);
    put_garbled(text, sink, cluster.first.garbled);
}

/// How many bit times a box is drawn for.
fn drawn_bits(scale: &Scale, cluster: &Cluster) -> u64
    requires scale { IsScale scale.now }
    requires cluster { IsCluster cluster.now }
    ensures value { result ≡ definition.drawn_bits scale.now cluster.now }
    ensures some { 0 < result }
{
    let pixel = PIXEL * (scale.to - scale.from) / scale.width + 1;
    (cluster.end - cluster.first.moment).max(pixel)
}

/// The words of the transmissions of a box.
fn put_members<K: Sink>(text: &mut TextBuffer, sink: &mut K, cluster: &Cluster)
    requires { cluster.now.first.moment ≤ cluster.now.first.end }
    ensures { Adds K.held K.faults sink.old sink.new text.old text.new (definition.members_words cluster.now) }
{
    if cluster.count == 1 {
        put_sent(text, sink, &cluster.first);
    } else {
        put_many(text, sink, cluster);
    }
}

/// How many of so many bit times are busy.
fn put_busy<K: Sink>(text: &mut TextBuffer, sink: &mut K, busy: u64, bits: u64)
    ensures { Adds K.held K.faults sink.old sink.new text.old text.new (definition.busy_words busy bits) }
{
    text.put(sink, b", busy ");
    text.put_number(sink, busy);
    text.put(sink, b" of ");
    text.put_number(sink, bits);
    text.put(sink, b" bit times");
}

/// The same of a box of what takes less than a pixel.
fn put_share<K: Sink>(text: &mut TextBuffer, sink: &mut K, scale: &Scale, cluster: &Cluster)
    requires scale { IsScale scale.now }
    requires cluster { IsCluster cluster.now }
    ensures { Adds K.held K.faults sink.old sink.new text.old text.new (definition.share_words scale.now cluster.now) }
{
    let bits = drawn_bits(scale, cluster);
    if is_thin(scale, &cluster.first) {
        put_busy(text, sink, cluster.busy, bits);
    }
}

/// The words of a box.
pub(crate) fn put_cluster_words<K: Sink>(
    text: &mut TextBuffer,
    sink: &mut K,
    scale: &Scale,
    cluster: &Cluster,
)
    requires scale { IsScale scale.now }
    requires cluster { IsCluster cluster.now }
    ensures { Adds K.held K.faults sink.old sink.new text.old text.new (definition.cluster_words scale.now cluster.now) }
{
    put_members(text, sink, cluster);
    put_share(text, sink, scale, cluster);
}

/// Whether the square of a height is no more than the share of the square of the whole height that is busy.
fn is_below_root(busy: u64, bits: u64, height: u64) -> bool
    requires { height ≤ 180 }
    ensures { result ≡ definition.is_below_root busy bits height }
{
    let square = u128::from(height * height) * u128::from(bits);
    square <= u128::from(BOX_HEIGHT * BOX_HEIGHT) * u128::from(busy)
}

/// The square root of the share that is busy, of the height of a box.
fn root_height(busy: u64, bits: u64) -> u64
    ensures value { result ≡ definition.root_height busy bits }
    ensures most { result ≤ 180 }
{
    let mut height = 0;
    for k in 0..BOX_HEIGHT {
        height += u64::from(is_below_root(busy, bits, k + 1));
    }
    height
}

/// The height of a box of transmissions that take less than a pixel.
fn share_height(scale: &Scale, cluster: &Cluster) -> u64
    requires scale { IsScale scale.now }
    requires cluster { IsCluster cluster.now }
    ensures value { result ≡ definition.share_height scale.now cluster.now }
    ensures most { result ≤ 180 }
{
    let bits = drawn_bits(scale, cluster);
    root_height(cluster.busy, bits)
        .max(LEAST_HEIGHT)
        .min(BOX_HEIGHT)
}

/// The height of a box.
pub(crate) fn cluster_height(scale: &Scale, cluster: &Cluster) -> u64
    requires scale { IsScale scale.now }
    requires cluster { IsCluster cluster.now }
    ensures value { result ≡ definition.cluster_height scale.now cluster.now }
    ensures most { result ≤ 180 }
{
    if is_thin(scale, &cluster.first) {
        share_height(scale, cluster)
    } else {
        BOX_HEIGHT
    }
}
