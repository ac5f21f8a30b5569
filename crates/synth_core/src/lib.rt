//! The whole job over bytes: a source's text in, the texts of its network and of the network's vectors out.
#![tactic(auto)]

mod demo;
mod error;
mod fault;
mod forms;
mod laws;
mod listed;
mod made;
mod maker;
mod one;
mod read;
mod search;
mod settings;
mod synthesis;
mod vector_files;

pub use demo::demo_text;
pub use error::SynthErr;
pub use fault::TextFault;
pub use made::{Made, Summary};
pub use maker::StoreMaker;
pub use one::one_answer_law;
pub use settings::{Choice, Settings, SourceKind};
pub use synthesis::synthesise;
