// The own bits of each word of a unit. Any other bit that a made-up state has set counts for nothing.
ghost use Rattle.std.specs.Prelude.{◌≡◌};
ghost use Rattle.state.specs.Own.{own_idr, own_scr, own_ssr, own_sctr, own_status, own_area, own_tag, own_frame, own_code, own_pointer};

// IDR: unit number, type and version.
#[tactic(auto, unfolding(crate::specs::Own::own_idr))]
pub fn idr(w: u32) -> u32
    ensures { result ≡ own_idr w }
{
    words::bits(w, 31, 16) * 65536
}

// SSR: CE, BE; WT, SP, G, CI; M, U, WP, BH, V.
#[tactic(auto, unfolding(crate::specs::Own::own_ssr))]
pub fn ssr(w: u32) -> u32
    ensures { result ≡ own_ssr w }
{
    words::bits(w, 15, 14) * 16384 + words::bits(w, 9, 6) * 64 + words::bits(w, 4, 0)
}

// SCTR: PE, SE, PR.
#[tactic(auto, unfolding(crate::specs::Own::own_sctr))]
pub fn sctr(w: u32) -> u32
    ensures { result ≡ own_sctr w }
{
    words::bits(w, 15, 13) * 8192
}

// PFSR: the code.
#[tactic(auto, unfolding(crate::specs::Own::own_status))]
pub fn status(w: u32) -> u32
    ensures { result ≡ own_status w }
{
    words::bits(w, 18, 16) * 65536
}

// SAPR and UAPR: table base; WT; G, CI; TE.
#[tactic(auto, unfolding(crate::specs::Own::own_area))]
pub fn area(w: u32) -> u32
    ensures { result ≡ own_area w }
{
    words::bits(w, 31, 12) * 4096
        + words::bits(w, 9, 9) * 512
        + words::bits(w, 7, 6) * 64
        + words::bits(w, 0, 0)
}

// A line's tag word: the tag and VV. A PATC page word: the page, S and V.
#[tactic(auto, unfolding(crate::specs::Own::own_tag))]
pub fn tag(w: u32) -> u32
    ensures { result ≡ own_tag w }
{
    words::bits(w, 31, 12) * 4096 + words::bits(w, 1, 0)
}

// A PATC frame word: the frame; WT, SP, G, CI; M; WP.
#[tactic(auto, unfolding(crate::specs::Own::own_frame))]
pub fn frame(w: u32) -> u32
    ensures { result ≡ own_frame w }
{
    words::bits(w, 31, 12) * 4096
        + words::bits(w, 9, 6) * 64
        + words::bits(w, 4, 4) * 16
        + words::bits(w, 2, 2) * 4
}

// SCR: the command's code. A set's word: its use code. Both are bits 5-0.
#[tactic(auto, unfolding(crate::specs::Own::own_scr, crate::specs::Own::own_code))]
pub fn code(w: u32) -> u32
    ensures { (result ≡ own_scr w) × (result ≡ own_code w) }
{
    words::bits(w, 5, 0)
}

// The PATC's pointer: one over 55 counts as 0.
#[tactic(auto, unfolding(crate::specs::Own::own_pointer))]
pub fn pointer(w: u32) -> u32
    ensures { result ≡ own_pointer w }
{
    if w <= 55 { w } else { 0 }
}
