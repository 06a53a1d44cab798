//! The roles that most members have, each in a byte.

ghost use Rattle.std.specs.Prelude.{◌≡◌, IfSome};
ghost use Rattle.osm_rows.specs.Load.PartRows.{role_text};

/// A role that many members have.
#[derive(Clone, Copy, Debug)]
pub(crate) enum UsualRole {
    Empty,
    Outer,
    Inner,
    Forward,
    Backward,
    Stop,
    Platform,
    ForwardStop,
    BackwardStop,
    StopEntryOnly,
    StopExitOnly,
    PlatformEntryOnly,
    PlatformExitOnly,
    MainStream,
    SideStream,
    From,
    Via,
    To,
    House,
    Street,
    Outline,
    Part,
    AdminCentre,
    Label,
    Subarea,
}

/// All of them, the most usual ones first.
const USUAL_ROLES: [UsualRole; 25] = [
    UsualRole::Empty,
    UsualRole::Outer,
    UsualRole::Inner,
    UsualRole::Forward,
    UsualRole::Backward,
    UsualRole::Stop,
    UsualRole::Platform,
    UsualRole::ForwardStop,
    UsualRole::BackwardStop,
    UsualRole::StopEntryOnly,
    UsualRole::StopExitOnly,
    UsualRole::PlatformEntryOnly,
    UsualRole::PlatformExitOnly,
    UsualRole::MainStream,
    UsualRole::SideStream,
    UsualRole::From,
    UsualRole::Via,
    UsualRole::To,
    UsualRole::House,
    UsualRole::Street,
    UsualRole::Outline,
    UsualRole::Part,
    UsualRole::AdminCentre,
    UsualRole::Label,
    UsualRole::Subarea,
];

impl UsualRole {
    /// The text of the role.
    pub(crate) fn text(self) -> &'static str
        ensures { result.now ≡ role_text self }
    {
        match self {
            UsualRole::Empty => "",
            UsualRole::Outer => "outer",
            UsualRole::Inner => "inner",
            UsualRole::Forward => "forward",
            UsualRole::Backward => "backward",
            UsualRole::Stop => "stop",
            UsualRole::Platform => "platform",
            UsualRole::ForwardStop => "forward_stop",
            UsualRole::BackwardStop => "backward_stop",
            UsualRole::StopEntryOnly => "stop_entry_only",
            UsualRole::StopExitOnly => "stop_exit_only",
            UsualRole::PlatformEntryOnly => "platform_entry_only",
            UsualRole::PlatformExitOnly => "platform_exit_only",
            UsualRole::MainStream => "main_stream",
            UsualRole::SideStream => "side_stream",
            UsualRole::From => "from",
            UsualRole::Via => "via",
            UsualRole::To => "to",
            UsualRole::House => "house",
            UsualRole::Street => "street",
            UsualRole::Outline => "outline",
            UsualRole::Part => "part",
            UsualRole::AdminCentre => "admin_centre",
            UsualRole::Label => "label",
            UsualRole::Subarea => "subarea",
        }
    }

    /// The role with this text, if it is one of these.
    pub(crate) fn of(text: &[u8]) -> Option<UsualRole>
        ensures { IfSome result (λ role. role_text role ≡ text.now) }
    {
        for role in USUAL_ROLES {
            if role.text().as_bytes() == text {
                return Some(role);
            }
        }
        None
    }
}
