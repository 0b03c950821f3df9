// A job that violates no rule, alone or at the head of an input.
ghost use Rattle.std.specs.Prelude.{◌≡◌, ◌<◌, ◌^◌, length, None};
ghost use Rattle.kp_base.specs.First.{first};
ghost use Rattle.kp_stage.specs.Start.{start_of, stall_word, input};
ghost use Rattle.kp_image.specs.{Sections.sections_of, Spans.word_in, Feeds.row_in};

use kp_image::Sections;
use kp_stage::Design;

/// A job that violates no rule: its design, and the contents of its sections.
pub struct Accepted {
    pub design: Design,
    pub sections: Sections,
    pub ghost few: { length design.job.decls < 2 ^ 32 },
    pub ghost start: { sections.start ≡ start_of design.job },
    pub ghost stalls: { word_in sections.stalls ≡ stall_word design.job },
    pub ghost inputs: { row_in sections.inputs ≡ input design.job },
    pub ghost unbroken: { first (sections_of design.job).asked ≡ None },
}

impl Drop for Accepted {
    fn drop(self) {
        let Accepted { design, sections } = self;
        drop(design);
        drop(sections);
    }
}

/// A job at the head of an input, and the offset after its `end`, where the rest starts.
pub struct Head {
    pub job: Accepted,
    pub rest: u32,
}

impl Drop for Head {
    fn drop(self) {
        let Head { job, rest: _ } = self;
        drop(job);
    }
}
