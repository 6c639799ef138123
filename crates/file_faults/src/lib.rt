// The faults of reading whole files: of certificates, of revocation lists, of what a signed object carries and of
// the shell around it.
//
// Each layer has a fault type of its own, with a variant for each layer below it and one for the rules of its own.
// `Fault` gives the report of each: the rule, the place and the innermost layer that saw it. `From` carries a fault up
// by `?`, and every conversion promises that the report stays the same. `LayerFault` is what the readers that serve
// every layer ask of a fault type. It rests on `fault` for the reports of elements and sets, and on `layout` for
// `LayerFault`.
#![tactic(auto)]

ghost use Rattle.std.specs.Prelude.{◌≡◌};
ghost use Rattle.fault.specs.Faults.{element_report, set_report};
ghost use Rattle.fault.specs.declared.Layer.TheVariants.{Certificate, Crl, Content, Shell};
ghost use Rattle.file_faults.specs.Reports.{certificate_report, crl_report, content_report, shell_report};

use fault::{ElementFault, Fault, Layer, Report, Rule, SetFault};
use layout::LayerFault;

// A fault in a certificate: one of an element or of a set of resources in it, or a rule of its own.
#[derive(Clone, Copy)]
pub enum CertificateFault {
    Element(ElementFault),
    Set(SetFault),
    Own { rule: Rule, place: usize },
}

impl Fault for CertificateFault {
    ghost told = { certificate_report };

    fn report(&self) -> Report {
        match self {
            CertificateFault::Element(e) => e.report(),
            CertificateFault::Set(e) => e.report(),
            CertificateFault::Own { rule, place } => Report {
                rule: *rule,
                place: *place,
                layer: Layer::Certificate,
            },
        }
    }
}

impl LayerFault for CertificateFault {
    ghost told = { certificate_report };

    ghost layer = { Certificate };

    fn of_element(e: ElementFault) -> CertificateFault {
        CertificateFault::Element(e)
    }

    fn own(rule: Rule, place: usize) -> CertificateFault {
        CertificateFault::Own { rule, place }
    }
}

impl From<ElementFault> for CertificateFault {
    ghost from_gives = { λ e r. certificate_report r ≡ element_report e };

    fn from(e: ElementFault) -> CertificateFault {
        CertificateFault::Element(e)
    }
}

impl From<SetFault> for CertificateFault {
    ghost from_gives = { λ e r. certificate_report r ≡ set_report e };

    fn from(e: SetFault) -> CertificateFault {
        CertificateFault::Set(e)
    }
}

// A fault in a revocation list: one of an element in it, or a rule of its own.
#[derive(Clone, Copy)]
pub enum CrlFault {
    Element(ElementFault),
    Own { rule: Rule, place: usize },
}

impl Fault for CrlFault {
    ghost told = { crl_report };

    fn report(&self) -> Report {
        match self {
            CrlFault::Element(e) => e.report(),
            CrlFault::Own { rule, place } => Report {
                rule: *rule,
                place: *place,
                layer: Layer::Crl,
            },
        }
    }
}

impl LayerFault for CrlFault {
    ghost told = { crl_report };

    ghost layer = { Crl };

    fn of_element(e: ElementFault) -> CrlFault {
        CrlFault::Element(e)
    }

    fn own(rule: Rule, place: usize) -> CrlFault {
        CrlFault::Own { rule, place }
    }
}

impl From<ElementFault> for CrlFault {
    ghost from_gives = { λ e r. crl_report r ≡ element_report e };

    fn from(e: ElementFault) -> CrlFault {
        CrlFault::Element(e)
    }
}

// A fault in what a signed object carries, a manifest or a route origin authorisation: one of an element in it,
// or a rule of its own.
#[derive(Clone, Copy)]
pub enum ContentFault {
    Element(ElementFault),
    Own { rule: Rule, place: usize },
}

impl Fault for ContentFault {
    ghost told = { content_report };

    fn report(&self) -> Report {
        match self {
            ContentFault::Element(e) => e.report(),
            ContentFault::Own { rule, place } => Report {
                rule: *rule,
                place: *place,
                layer: Layer::Content,
            },
        }
    }
}

impl LayerFault for ContentFault {
    ghost told = { content_report };

    ghost layer = { Content };

    fn of_element(e: ElementFault) -> ContentFault {
        ContentFault::Element(e)
    }

    fn own(rule: Rule, place: usize) -> ContentFault {
        ContentFault::Own { rule, place }
    }
}

impl From<ElementFault> for ContentFault {
    ghost from_gives = { λ e r. content_report r ≡ element_report e };

    fn from(e: ElementFault) -> ContentFault {
        ContentFault::Element(e)
    }
}

// A fault in the shell of a signed object: one of an element in it, of its certificate or of what it carries, or a
// rule of its own.
#[derive(Clone, Copy)]
pub enum ShellFault {
    Element(ElementFault),
    Certificate(CertificateFault),
    Content(ContentFault),
    Own { rule: Rule, place: usize },
}

impl Fault for ShellFault {
    ghost told = { shell_report };

    fn report(&self) -> Report {
        match self {
            ShellFault::Element(e) => e.report(),
            ShellFault::Certificate(e) => e.report(),
            ShellFault::Content(e) => e.report(),
            ShellFault::Own { rule, place } => Report {
                rule: *rule,
                place: *place,
                layer: Layer::Shell,
            },
        }
    }
}

impl LayerFault for ShellFault {
    ghost told = { shell_report };

    ghost layer = { Shell };

    fn of_element(e: ElementFault) -> ShellFault {
        ShellFault::Element(e)
    }

    fn own(rule: Rule, place: usize) -> ShellFault {
        ShellFault::Own { rule, place }
    }
}

impl From<ElementFault> for ShellFault {
    ghost from_gives = { λ e r. shell_report r ≡ element_report e };

    fn from(e: ElementFault) -> ShellFault {
        ShellFault::Element(e)
    }
}

impl From<CertificateFault> for ShellFault {
    ghost from_gives = { λ e r. shell_report r ≡ certificate_report e };

    fn from(e: CertificateFault) -> ShellFault {
        ShellFault::Certificate(e)
    }
}

impl From<ContentFault> for ShellFault {
    ghost from_gives = { λ e r. shell_report r ≡ content_report e };

    fn from(e: ContentFault) -> ShellFault {
        ShellFault::Content(e)
    }
}
