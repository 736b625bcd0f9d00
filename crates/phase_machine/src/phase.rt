use sporadic_model::ResourceId;

/// What a job does next.
#[derive(Clone, Copy, Debug, PartialEq, Eq)]
pub enum Phase {
    /// A tick outside of its requests.
    Local,
    /// A tick of the request of this segment of its script, counted from 0. The request is of this resource.
    Asking(u32, ResourceId),
    /// Nothing more.
    Finished,
}
